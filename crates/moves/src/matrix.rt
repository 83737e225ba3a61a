// The columns of a matrix turned, and values copied, as words.
ghost use Rattle.std.specs.Prelude.{◌≡◌, cond, ◌+◌, ◌*◌, ◌/◌, ◌%◌, ◌≤◌, ◌<◌, ltb, length};
ghost use Rattle.values.specs.Value.{place, kind_at};
ghost use Rattle.buffers.specs.Memory.{put};
ghost use Rattle.words.specs.Words.{value_at, words_of};
ghost use Rattle.calls.specs.Program.{FirstMatrix};
ghost use Rattle.moves.specs.Moves.{transpose_of};
ghost use Rattle.moves.specs.Program.{columns_of, rows_of, turned_kind, column, columns, at, row, turned};

// How many columns the matrix type at p has, and how many rows.
fn columns_at(p: u64) -> usize
    requires { (20 < p) × (p < 39) }
    ensures { result ≡ columns_of (kind_at p) }
{
    ((p - 21) % 9 / 3 + 2) as usize
}

fn rows_at(p: u64) -> usize
    requires { (20 < p) × (p < 39) }
    ensures { result ≡ rows_of (kind_at p) }
{
    ((p - 21) % 3 + 2) as usize
}

// The place of the type with rows and columns swapped.
fn turned_at(p: u64) -> u64
    requires { (20 < p) × (p < 39) }
    ensures { result ≡ place (turned_kind (kind_at p)) }
{
    21 + (p - 21) / 9 * 9 + (p - 21) % 3 * 3 + (p - 21) % 9 / 3
}

// Four words from one on.
fn column(w: &[u64], at: usize) -> [u64; 4]
    requires { at + 4 ≤ length w.now }
    ensures { result ≡ column w.now at }
{
    std::array::from_fn(|i| w[at + i])
}

// The columns of a matrix of n rows whose lanes stand from the fourth word on. Of a column only the first n lanes are its own.
// Four are written out, here and in `turned`: the proof of a closure knows no bound of its argument that a call in it requires.
fn columns(w: &[u64], n: usize) -> [[u64; 4]; 4]
    requires { (n ≤ 4) × (20 ≤ length w.now) }
    ensures { result ≡ columns n w.now }
{
    [
        column(w, 4),
        column(w, 4 + n),
        column(w, 4 + 2 * n),
        column(w, 4 + 3 * n),
    ]
}

fn row(m: [[u64; 4]; 4], r: usize) -> [u64; 4]
    requires { r < 4 }
    ensures { result ≡ row m r }
{
    std::array::from_fn(|c| m[c][r])
}

fn turned(m: [[u64; 4]; 4]) -> [[u64; 4]; 4]
    ensures { result ≡ turned m }
{
    [row(m, 0), row(m, 1), row(m, 2), row(m, 3)]
}

// Lane j of columns of n rows: 0 past the first k.
fn lane_at(m: [[u64; 4]; 4], n: usize, k: usize, j: usize) -> u64
    requires { (1 ≤ n) × (n ≤ 4) × (k ≤ 4 * n) }
    ensures { result ≡ cond (ltb j k) (at m (j / n) (j % n)) 0 }
{
    if j < k { m[j / n][j % n] } else { 0 }
}

// The words of the transposed matrix that is the first value of a call.
pub fn put_transposed(w: &[u64], p: u64, out: &mut [u64])
    requires { FirstMatrix w.now p × (17 ≤ length out.old) }
    ensures { out.new ≡ put out.old 0 (words_of (transpose_of (value_at w.now 3))) }
{
    let n = columns_at(p);
    let m = turned(columns(w, rows_at(p)));
    let count = places::count_at(p);
    out[0] = turned_at(p);
    for j in 0..16 {
        out[1 + j] = lane_at(m, n, count, j);
    }
}

// The words s, at the start of the lent memory. By a loop: `copy_from_slice` copies by memmove, which a program that links the library may
// not have.
pub fn put_copy(s: &[u64], out: &mut [u64])
    requires { length s.now ≤ length out.old }
    ensures { out.new ≡ put out.old 0 s.now }
{
    for (i, x) in s.iter().enumerate() {
        out[i] = *x;
    }
}
