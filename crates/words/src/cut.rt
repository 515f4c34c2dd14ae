// Cutting a line into words.
ghost use Rattle.std.specs.Prelude.{◌≡◌, not, position};
ghost use Rattle.words.specs.Words.{blank, unblanked, uncommented, run, past, word, after, word_at};

/// A blank parts words: a space or a tab.
fn is_blank(octet: u8) -> bool
    ensures { result ≡ blank octet }
{
    octet == b' ' || octet == b'\t'
}

/// Where the first octet stands that is no blank.
fn first_solid(line: &[u8]) -> Option<usize>
    ensures { result ≡ position (λ b. not (blank b)) line.now }
{
    line.iter().position(|octet| !is_blank(*octet))
}

/// Where the first blank stands.
fn first_blank(line: &[u8]) -> Option<usize>
    ensures { result ≡ position blank line.now }
{
    line.iter().position(|octet| is_blank(*octet))
}

/// The line from its first octet that is no blank.
fn skip_blanks(line: &[u8]) -> &[u8]
    ensures { result.now ≡ unblanked line.now }
{
    let start = first_solid(line).unwrap_or(line.len());
    &line[start..]
}

/// Nothing, where a comment begins.
fn skip_comment(line: &[u8]) -> &[u8]
    ensures { result.now ≡ uncommented line.now }
{
    match line {
        [b'#', ..] => &[],
        _ => line,
    }
}

/// The octets before the first blank, and what stands from there on.
fn split_at_blank(line: &[u8]) -> (&[u8], &[u8])
    ensures front { result.0.now ≡ run line.now }
    ensures back { result.1.now ≡ past line.now }
{
    let end = first_blank(line).unwrap_or(line.len());
    line.split_at(end)
}

/// The first word of a line, and what stands after it; the word is empty where the line has ended.
#[tactic(auto, unfolding(crate::specs::Words::word, crate::specs::Words::after))]
pub fn first_word(line: &[u8]) -> (&[u8], &[u8])
    ensures word { result.0.now ≡ word line.now }
    ensures rest { result.1.now ≡ after line.now }
{
    split_at_blank(skip_comment(skip_blanks(line)))
}

/// The word of a line at a place, counted from 0; it is empty where the line has ended.
#[tactic(auto, using(crate::proofs::Cuts::from_more), unfolding(crate::specs::Words::word_at))]
pub fn word_at(line: &[u8], place: usize) -> &[u8]
    ensures { result.now ≡ word_at place line.now }
{
    let mut left = line;
    for _ in 0..place {
        let (_, rest) = first_word(left);
        left = rest;
    }
    let (word, _) = first_word(left);
    word
}
