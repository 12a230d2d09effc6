// The text of a commit, read by its lines, as Git lays it out: a tree, any number of parents, an author, a committer
// with the date. What follows these lines is not read.
#![tactic(auto)]

ghost use Rattle.std.specs.Prelude.{◌≡◌, ℕ, ◌+◌, ◌-◌, ◌*◌, ◌^◌, ◌<◌, ◌≤◌, List, [], ◌∷◌, ◌++◌, length, ℤ, Some, MatchOption, MatchResult, is_some};
ghost use Rattle.std.specs.List.{slice_get};
ghost use Rattle.commit.specs.Layout.{upward, downward, hexb, named, behind, lines_of, words_of, nameb, amount_of, moment_of, zoneb, all_digits, stamp, hex_value, name_of, committer_of, parents_of, commit_of, reading_of, fits};
ghost use Rattle.commit.specs.Laws.{Written, Composed};
ghost use Rattle.commit.specs.Shapes.{names_of, dated, said};
ghost use Rattle.source.specs.declared.ObjectId.{ObjectId as Id};

use source::ObjectId;
use std::array;

// Where a text misfits: the start of the first line that fails or is missing.
#[derive(Clone, Copy, Debug, PartialEq, Eq)]
pub struct Misfit {
    pub line: usize,
}

// The bytes of a parent's line: the word `parent`, a space, a name and a line feed.
pub const PARENT_LINE: usize = 48;

// A commit's date, and its parents' lines, of `PARENT_LINE` bytes each: a borrowed part of the text, so that a question
// allocates nothing.
#[derive(Clone, Copy, Debug)]
pub struct Commit<'a> {
    pub date: i64,
    pub parents: &'a [u8],
}

// The first line without its line feed, and what follows it; none where no line feed comes.
fn first_line<'a>(text: &'a [u8]) -> Option<(&'a [u8], &'a [u8])>
    ensures { MatchOption result (lines_of text.now ≡ []) (λ x. (lines_of text.now ≡ x.0.now ∷ lines_of x.1.now) × (text.now ≡ x.0.now ++ 10 ∷ x.1.now)) }
{
    let end = text.iter().position(|b| *b == b'\n')?;
    let (line, tail) = text.split_at(end);
    Some((line, &tail[1..]))
}

// The lines still to read, and the place in the whole text where they begin. A tail of fields has the same two parts, but
// a text needs nothing else of that crate.
#[derive(Clone, Copy, Debug)]
struct Lines<'a> {
    text: &'a [u8],
    at: usize,
    ghost within: { at + length text.now < 2 ^ 64 },
}

impl<'a> Lines<'a> {
    // The first line and those behind it; a misfit where no line feed comes.
    fn split_first(self) -> Result<(&'a [u8], Lines<'a>), Misfit>
        ensures { MatchResult result (λ x. (lines_of self.entry.text.now ≡ x.0.now ∷ lines_of x.1.text.now) × (self.entry.text.now ≡ x.0.now ++ 10 ∷ x.1.text.now) × (x.1.at ≡ self.entry.at + (length x.0.now + 1))) (λ e. (lines_of self.entry.text.now ≡ []) × (e.line ≡ self.entry.at)) }
    {
        let (line, text) = first_line(self.text).ok_or(self.misfit())?;
        let at = self.at + (line.len() + 1);
        Ok((line, Lines { text, at }))
    }

    // The first line misfits.
    fn misfit(self) -> Misfit
        ensures { result.line ≡ self.entry.at }
    {
        Misfit { line: self.at }
    }
}

// Whether this is a lower-case hex digit. The library's test takes upper case too.
fn is_hex(b: u8) -> bool
    ensures { result ≡ hexb b }
{
    matches!(b, b'0'..=b'9' | b'a'..=b'f')
}

// Whether these are forty lower-case hex digits.
fn is_name(digits: &[u8]) -> bool
    ensures { result ≡ nameb digits.now }
{
    digits.len() == 40 && digits.iter().all(|d| is_hex(*d))
}

// Whether a line is this word and a name behind it.
fn is_named(line: &[u8], word: &[u8]) -> bool
    ensures { result ≡ is_some (named (behind word.now line.now)) }
{
    line.strip_prefix(word).is_some_and(is_name)
}

// The line's part before its last space and the word behind that; none where there is no space. Like `first_line`, one
// search of the library, but from behind and with the parts in other roles.
fn last_word<'a>(line: &'a [u8]) -> Option<(&'a [u8], &'a [u8])>
    ensures { MatchOption result (words_of line.now ≡ line.now ∷ []) (λ x. words_of line.now ≡ words_of x.0.now ++ x.1.now ∷ []) }
{
    let space = line.iter().rposition(|b| *b == b' ')?;
    let (front, word) = line.split_at(space);
    Some((front, &word[1..]))
}

// Whether all bytes are decimal digits.
fn all_digits(digits: &[u8]) -> bool
    ensures { result ≡ all_digits digits.now }
{
    digits.iter().all(u8::is_ascii_digit)
}

// A sign and four digits.
fn is_zone(word: &[u8]) -> bool
    ensures { result ≡ zoneb word.now }
{
    match word {
        [b'+' | b'-', digits @ ..] => digits.len() == 4 && all_digits(digits),
        _ => false,
    }
}

// The number of 1 to 19 digits. The library's `parse` takes a plus sign and more digits too.
fn amount(digits: &[u8]) -> Option<u64>
    ensures { result ≡ amount_of digits.now }
{
    if digits.is_empty() || digits.len() > 19 || !all_digits(digits) {
        return None;
    }
    // No step overflows because of how few digits came before, which a `fold`'s closure would not know.
    let mut n = 0u64;
    for d in digits {
        n = n * 10 + u64::from(*d - b'0');
    }
    Some(n)
}

// An optional minus and a number, within 64 signed bits.
fn moment(word: &[u8]) -> Option<i64>
    ensures { result ≡ moment_of word.now }
{
    match word {
        [b'-', digits @ ..] => amount(digits).and_then(negative),
        _ => amount(word).and_then(positive),
    }
}

fn negative(n: u64) -> Option<i64>
    ensures { result ≡ downward (Some n) }
{
    0i64.checked_sub_unsigned(n)
}

fn positive(n: u64) -> Option<i64>
    ensures { result ≡ upward (Some n) }
{
    i64::try_from(n).ok()
}

// The date of a committer line's part behind its first word.
fn date_of(part: &[u8]) -> Option<i64>
    ensures { result ≡ stamp (words_of part.now) }
{
    let (front, zone) = last_word(part)?;
    if !is_zone(zone) {
        return None;
    }
    match last_word(front) {
        Some((_, word)) => moment(word),
        None => moment(front),
    }
}

// The value of a hex digit, and 0 of any other byte. The library's `to_digit` takes upper case too.
fn hex_value(d: u8) -> u8
    ensures value { result ≡ hex_value d }
    ensures bound { result < 16 }
{
    match d {
        b'0'..=b'9' => d - b'0',
        b'a'..=b'f' => d - b'a' + 10,
        _ => 0,
    }
}

// The name that forty digits write.
fn name_of(digits: &[u8]) -> ObjectId
    requires { length digits.now ≡ 40 }
    ensures { result ≡ name_of digits.now }
{
    let bytes = array::from_fn(|i| hex_value(digits[2 * i]) * 16 + hex_value(digits[2 * i + 1]));
    ObjectId { bytes }
}

// The committer line at the front: its date.
fn committer(lines: Lines) -> Result<i64, Misfit>
    ensures { dated result ≡ committer_of lines.entry.at (lines_of lines.entry.text.now) }
{
    let (line, _) = lines.split_first()?;
    let part = line.strip_prefix(b"committer ");
    part.and_then(date_of).ok_or(lines.misfit())
}

// The lines behind the tree line: parents, an author and a committer.
fn after_tree<'a>(lines: Lines<'a>) -> Result<Commit<'a>, Misfit>
    ensures { said result ≡ parents_of lines.entry.at [] (lines_of lines.entry.text.now) }
{
    let mut rest = lines;
    loop {
        let (line, tail) = rest.split_first()?;
        if is_named(line, b"parent ") {
            rest = tail;
        } else if line.starts_with(b"author ") {
            let date = committer(tail)?;
            let parents = &lines.text[..rest.at - lines.at];
            return Ok(Commit { date, parents });
        } else {
            return Err(rest.misfit());
        }
    }
}

// The lines of a commit's text: its date and parents.
fn whole<'a>(lines: Lines<'a>) -> Result<Commit<'a>, Misfit>
    ensures { said result ≡ commit_of lines.entry.at (lines_of lines.entry.text.now) }
{
    let (line, tail) = lines.split_first()?;
    if is_named(line, b"tree ") {
        after_tree(tail)
    } else {
        Err(lines.misfit())
    }
}

// What a commit's text says: its date and parents, or the start of the first line that fails or is missing, counted
// from the text's first byte. What the layout composes is taken, and only that.
pub fn read<'a>(text: &'a [u8]) -> Result<Commit<'a>, Misfit>
    ensures means { said result ≡ reading_of text.now }
    ensures takes { (d : ℤ) (ps : List Id) → Written text.now d ps → said result ≡ fits d ps }
    ensures composed { Composed text.now (said result) }
{
    whole(Lines { text, at: 0 })
}

impl Commit<'_> {
    // How many parents there are.
    pub fn count(&self) -> usize
        ensures { result ≡ length (names_of self.now.parents.now) }
    {
        self.parents.len() / PARENT_LINE
    }

    // The name of a parent by its number.
    pub fn parent(&self, n: usize) -> Option<ObjectId>
        ensures { result ≡ slice_get (names_of self.now.parents.now) n }
    {
        let (lines, _) = self.parents.as_chunks::<PARENT_LINE>();
        let line = lines.get(n)?;
        Some(name_of(&line[7..47]))
    }
}
