// Numbers from -2^126 to 2^126 as two words: the highest bit of the second tells the sign.
ghost use Rattle.std.specs.Prelude.{◌≡◌, ℕ, ◌<◌, ◌^◌, pos};
ghost use Rattle.std.specs.List.{All};
ghost use Rattle.ival.specs.Forms.{IsBounded};
ghost use Rattle.memory_trees.specs.Values.{body_from, body_of, high_word, item, low_word, number_in};

const WORD: u128 = 1 << 64;

const SIGN: u64 = 1 << 63;

fn low_word(x: i128) -> u64
    requires { IsBounded x }
    ensures { result ≡ low_word x }
{
    let n = if x >= 0 { x } else { -1 - x };
    (n as u128 % WORD) as u64
}

fn high_word(x: i128) -> u64
    requires { IsBounded x }
    ensures { result ≡ high_word x }
{
    if x >= 0 {
        (x as u128 / WORD) as u64
    } else {
        ((-1 - x) as u128 / WORD) as u64 + SIGN
    }
}

/// The number of two words.
pub fn number_in(low: u64, high: u64) -> i128
    ensures { result ≡ number_in low high }
{
    if high < SIGN {
        (u128::from(low) + u128::from(high) * WORD) as i128
    } else {
        -1 - (u128::from(low) + u128::from(high - SIGN) * WORD) as i128
    }
}

/// Number i, or 0 past the end.
fn item(xs: &[i128], i: usize) -> i128
    requires { All IsBounded xs.now }
    ensures value { result ≡ item xs.now i }
    ensures bounded { IsBounded result }
{
    if i < xs.len() { xs[i] } else { 0 }
}

/// The words of four numbers.
pub fn body_of(first: i128, second: i128, third: i128, fourth: i128) -> [u64; 8]
    requires first { IsBounded first }
    requires second { IsBounded second }
    requires third { IsBounded third }
    requires fourth { IsBounded fourth }
    ensures { result ≡ body_of first second third fourth }
{
    [
        low_word(first),
        high_word(first),
        low_word(second),
        high_word(second),
        low_word(third),
        high_word(third),
        low_word(fourth),
        high_word(fourth),
    ]
}

/// The words of four numbers from number i on.
pub fn body_from(xs: &[i128], i: usize) -> [u64; 8]
    requires bounded { All IsBounded xs.now }
    requires small { i < 8 }
    ensures { result ≡ body_from xs.now i }
{
    body_of(
        item(xs, i),
        item(xs, i + 1),
        item(xs, i + 2),
        item(xs, i + 3),
    )
}
