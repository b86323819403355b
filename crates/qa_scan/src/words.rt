//! Bytes that are to come next.
ghost use Rattle.std.specs.Prelude.{◌≡◌, ◌≤◌, ◌+◌, length, take, ◌++◌, ◌∷◌, [], true, IfSome};

/// Whether four bytes from this place on are the same in both.
#[inline(always)]
fn four_equal(bytes: &[u8], word: &[u8], i: usize) -> bool
    requires { (i + 4 ≤ length bytes.now) × (i + 4 ≤ length word.now) }
    ensures { result ≡ true → take i bytes.now ≡ take i word.now
        → take (i + 4) bytes.now ≡ take (i + 4) word.now }
{
    // Without branches between them, so that the four are compared at once.
    (bytes[i] == word[i])
        & (bytes[i + 1] == word[i + 1])
        & (bytes[i + 2] == word[i + 2])
        & (bytes[i + 3] == word[i + 3])
}

/// Whether eight bytes from this place on are the same in both.
#[inline(always)]
fn eight_equal(bytes: &[u8], word: &[u8], i: usize) -> bool
    requires { (i + 8 ≤ length bytes.now) × (i + 8 ≤ length word.now) }
    ensures { result ≡ true → take i bytes.now ≡ take i word.now
        → take (i + 8) bytes.now ≡ take (i + 8) word.now }
{
    // Without branches between them, so that the eight are compared at once.
    (bytes[i] == word[i])
        & (bytes[i + 1] == word[i + 1])
        & (bytes[i + 2] == word[i + 2])
        & (bytes[i + 3] == word[i + 3])
        & (bytes[i + 4] == word[i + 4])
        & (bytes[i + 5] == word[i + 5])
        & (bytes[i + 6] == word[i + 6])
        & (bytes[i + 7] == word[i + 7])
}

/// How many bytes of the word make whole eights, where the bytes begin with these.
#[inline(always)]
fn eights(bytes: &[u8], word: &[u8]) -> Option<usize>
    requires { length word.now ≤ length bytes.now }
    ensures { IfSome result (λ i. (i ≤ length word.now) × (take i bytes.now ≡ take i word.now)) }
{
    let mut i = 0;
    while 8 <= word.len() - i {
        if !eight_equal(bytes, word, i) {
            return None;
        }
        i += 8;
    }
    Some(i)
}

/// How many bytes of the word make whole fours, where the bytes begin with these.
#[inline(always)]
fn fours(bytes: &[u8], word: &[u8]) -> Option<usize>
    requires { length word.now ≤ length bytes.now }
    ensures { IfSome result (λ i. (i ≤ length word.now) × (take i bytes.now ≡ take i word.now)) }
{
    let mut i = eights(bytes, word)?;
    while 4 <= word.len() - i {
        if !four_equal(bytes, word, i) {
            return None;
        }
        i += 4;
    }
    Some(i)
}

/// What follows the word, where the bytes begin with it.
#[inline(always)]
pub fn after<'a>(bytes: &'a [u8], word: &[u8]) -> Option<&'a [u8]>
    ensures { IfSome result (λ rest. bytes.now ≡ word.now ++ rest.now) }
{
    if bytes.len() < word.len() {
        return None;
    }
    let mut i = fours(bytes, word)?;
    while i < word.len() {
        if bytes[i] != word[i] {
            return None;
        }
        i += 1;
    }
    Some(&bytes[i..])
}

/// What follows the byte, where the bytes begin with it.
#[inline(always)]
pub fn after_byte(bytes: &[u8], byte: u8) -> Option<&[u8]>
    ensures { IfSome result (λ rest. bytes.now ≡ byte ∷ rest.now) }
{
    let [first, rest @ ..] = bytes else {
        return None;
    };
    if *first == byte { Some(rest) } else { None }
}

/// Whether the byte alone is left.
#[inline(always)]
pub fn is_last(bytes: &[u8], byte: u8) -> bool
    ensures { result ≡ true → bytes.now ≡ byte ∷ [] }
{
    if bytes.len() != 1 {
        return false;
    }
    bytes[0] == byte
}
