// A line's words, parted by blanks; `#` begins a comment.
#![tactic(auto)]

pub mod numbers;

ghost use Rattle.std.specs.Prelude.{◌≡◌, not};
ghost use Rattle.std.specs.List.{prefix_len, take_while};
ghost use Rattle.words.specs.Splits.{Parted};
ghost use Rattle.words.specs.Kinds.{blank_byte, comment_byte};

// A word, and what stands behind it.
#[derive(Clone, Copy)]
pub struct Split<'a> {
    pub word: &'a [u8],
    pub rest: &'a [u8],
}

fn is_blank(b: u8) -> bool
    ensures { result ≡ blank_byte b }
{
    matches!(b, b' ' | b'\t' | b'\r' | b'\n')
}

fn is_comment(b: u8) -> bool
    ensures { result ≡ comment_byte b }
{
    b == b'#'
}

// How many bytes stand before a comment. This and the next two are chains of their own and not one function that is given the test: of such
// a one the contract would have to say what the test answers.
fn code_length(line: &[u8]) -> usize
    ensures { result ≡ prefix_len (λ b. not (comment_byte b)) line.now }
{
    line.iter().take_while(|b| !is_comment(**b)).count()
}

// How many blanks stand at the front.
fn gap_length(line: &[u8]) -> usize
    ensures { result ≡ prefix_len blank_byte line.now }
{
    line.iter().take_while(|b| is_blank(**b)).count()
}

// How many bytes stand before a blank.
fn word_length(line: &[u8]) -> usize
    ensures { result ≡ prefix_len (λ b. not (blank_byte b)) line.now }
{
    line.iter().take_while(|b| !is_blank(**b)).count()
}

// The line without its comment.
pub fn uncommented<'a>(line: &'a [u8]) -> &'a [u8]
    ensures { result.now ≡ take_while (λ b. not (comment_byte b)) line.now }
{
    let end = code_length(line);
    &line[..end]
}

// The first word of a line, and the rest of the line behind it.
pub fn split_word<'a>(line: &'a [u8]) -> Option<Split<'a>>
    ensures { Parted line.now result }
{
    let gap = gap_length(line);
    let (_, begun) = line.split_at(gap);
    let end = word_length(begun);
    if end == 0 {
        return None;
    }
    let (word, rest) = begun.split_at(end);
    Some(Split { word, rest })
}
