// The fault of a spelling, worked out once there is one.
#![tactic(auto)]

ghost use Rattle.std.specs.Prelude.{◌≡◌, ◌+◌, ◌^◌, ◌≤◌, ◌<◌, true, length, take, drop};
ghost use Rattle.values.specs.Value.{kind_at};
ghost use Rattle.spelling.specs.Hex.{digit_bound, digits_below};
ghost use Rattle.spelling.specs.Read.{fault_number, at_end, lanes_at, read_lanes, read_value};
ghost use Rattle.faults.specs.Program.{faulty, fault_of, told_of};

use spelling::{Digits, Fault};
use values::Scalar;

// What is wrong with a spelling, and at which place from 1.
#[derive(Clone, Copy)]
pub struct Faulty {
    pub fault: Fault,
    pub place: usize,
}

// The number that a fault is told by, 0 where there is none.
pub fn fault_number(f: Fault) -> u8
    ensures { result ≡ fault_number f }
{
    match f {
        Fault::Nothing => 0,
        Fault::TypeSpelling => 9,
        Fault::Lanes => 10,
        Fault::Digit => 11,
    }
}

fn fault_at(fault: Fault, place: usize) -> Faulty
    ensures { result ≡ faulty fault place }
{
    Faulty { fault, place }
}

// The first digit that a lane cannot have.
fn digit_bound(s: Scalar) -> u8
    ensures { (result ≡ digit_bound s) × (result ≤ 16) }
{
    match s {
        Scalar::Boolean => 2,
        Scalar::I32 | Scalar::U32 | Scalar::F32 | Scalar::F16 => 16,
    }
}

// Whether four digits below b stand at i, where as many are due in the lane; a bool's lane has fewer.
fn four_at(table: &Digits, s: &[u8], i: usize, due: usize, b: u8) -> bool
    requires { (i ≤ length s.now) }
    ensures { result ≡ true → (4 ≤ due) × (i + 4 ≤ length s.now) × (digits_below b (take 4 (drop i s.now)) ≡ true) }
{
    if (4 <= due) & (b == 16) & (4 <= s.len() - i) {
        digits::four_digits(table, s, i)
    } else {
        false
    }
}

// What is wrong where the text ends, at the place p: with so many lanes and so many digits of a lane still due.
fn end_fault(left: usize, due: usize, p: usize) -> Faulty
    ensures { result ≡ fault_of (at_end left due p 0) }
{
    if due > 0 {
        return fault_at(Fault::Digit, p);
    }
    if left > 0 {
        return fault_at(Fault::Lanes, p);
    }
    fault_at(Fault::Nothing, 0)
}

// What is wrong with n + 1 lanes, each of w digits below b; s starts at place p. Digits are passed by fours, and else byte by byte.
fn lanes_fault(s: &[u8], p: usize, n: usize, w: usize, b: u8) -> Faulty
    requires { p + length s.now < 2 ^ 64 }
    ensures { result ≡ fault_of (lanes_at b w n w p 0 s.now) }
{
    let table = spelling::digit_table();
    let mut left = n;
    let mut due = w;
    let mut i: usize = 0;
    // No `for`: a turn takes four bytes or one.
    while i < s.len() {
        if four_at(&table, s, i, due, b) {
            due -= 4;
            i += 4;
            continue;
        }
        let x = s[i];
        if due == 0 {
            if x != b',' {
                return fault_at(Fault::Digit, p + i);
            }
            if left == 0 {
                return fault_at(Fault::Lanes, p + i);
            }
            left -= 1;
            due = w;
            i += 1;
            continue;
        }
        if b <= table.digit(x) {
            return fault_at(Fault::Digit, p + i);
        }
        due -= 1;
        i += 1;
    }
    end_fault(left, due, p + i)
}

// What is wrong with the lanes of a value of the type at k; s starts at place p.
fn fault_of(k: u64, s: &[u8], p: usize) -> Faulty
    requires { (k < 39) × (p + length s.now < 2 ^ 64) }
    ensures { result ≡ told_of (read_lanes (kind_at k) p s.now) }
{
    let n = places::count_at(k);
    if n == 0 {
        return fault_at(Fault::TypeSpelling, 1);
    }
    let t = places::scalar_at(k);
    lanes_fault(s, p, n - 1, spelling::digit_count(t), digit_bound(t))
}

// What is wrong with a value's spelling.
pub fn fault_in(s: &[u8]) -> Faulty
    ensures { (result.fault ≡ (read_value s.now).fault) × (result.place ≡ (read_value s.now).place) }
{
    let p = typenames::type_from(s);
    let c = spelling::type_len(p);
    if typenames::byte_at(s, c) != b':' {
        return fault_at(Fault::TypeSpelling, 1);
    }
    fault_of(p, &s[c + 1..], c + 2)
}
