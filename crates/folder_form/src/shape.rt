//! What the text of a folder's job says.
ghost use Rattle.std.specs.Prelude.{◌≡◌, IfSome, ◌≤◌, ◌<◌, slice_get};
ghost use Rattle.std.specs.Option.{option_map, unwrap_or};
ghost use Rattle.folder_form.specs.Shapes.{number_up_to, partitions_in, partitions_of_words, parts_at, shape_in, splits_in, splits_of_line, words_of};

use proto_wire::Text;

/// Over how many partitions a folder's addresses are spread, and how many splits it reads.
#[derive(Clone, Copy, Debug, PartialEq, Eq)]
pub struct Shape {
    /// 1 to 16.
    pub partitions: u32,
    pub splits: u64,
}

/// What the text of a job says: its first line is `partitions P`, with P from 1 to 16, and each line `ingress NAME N ..`
/// names N splits, 1 to 32. None where the first line is another.
#[tactic(auto, unfolding(crate::specs::Shapes::shape_in))]
pub fn shape_in(text: &Text) -> Option<Shape>
    ensures shape { result ≡ shape_in text.now }
    ensures some { IfSome result (λ shape. 1 ≤ shape.partitions) }
    ensures most { IfSome result (λ shape. shape.partitions ≤ 16) }
{
    let bytes = text.as_bytes();
    let partitions = partitions_in(bytes)?;
    Some(Shape {
        partitions,
        splits: splits_in(bytes),
    })
}

/// The number that decimal digits without a leading zero write, from 1 to a bound.
fn number_up_to(most: u32, word: &[u8]) -> Option<u32>
    requires { most < 100 }
    ensures value { result ≡ number_up_to most word.now }
    ensures some { IfSome result (λ number. 1 ≤ number) }
    ensures most { IfSome result (λ number. number ≤ most) }
{
    let mut number = 0;
    for byte in word {
        if !byte.is_ascii_digit() {
            return None;
        }
        if number == 0 && *byte == b'0' {
            return None;
        }
        number = number * 10 + (*byte - b'0') as u32;
        if number > most {
            return None;
        }
    }
    if number == 0 { None } else { Some(number) }
}

/// The part at a place, of those that a byte cuts bytes into.
fn part_at(bytes: &[u8], mark: u8, place: usize) -> Option<&[u8]>
    ensures { option_map (λ part. part.now) result ≡ slice_get (parts_at mark bytes.now) place }
{
    bytes.split(|byte| *byte == mark).nth(place)
}

/// The partitions that a text's first line names.
fn partitions_in(text: &[u8]) -> Option<u32>
    ensures value { result ≡ partitions_in text.now }
    ensures some { IfSome result (λ partitions. 1 ≤ partitions) }
    ensures most { IfSome result (λ partitions. partitions ≤ 16) }
{
    let line = part_at(text, b'\n', 0)?;
    let word = part_at(line, b' ', 0)?;
    let number = part_at(line, b' ', 1)?;
    if word == b"partitions".as_slice() && part_at(line, b' ', 2).is_none() {
        number_up_to(16, number)
    } else {
        None
    }
}

/// The splits that a text's lines name.
fn splits_in(text: &[u8]) -> u64
    ensures { result ≡ splits_in text.now }
{
    let mut splits: u64 = 0;
    for line in text.split(|byte| *byte == b'\n') {
        splits = splits.saturating_add(splits_of_line(line));
    }
    splits
}

/// The splits that a line names, where it names any.
fn named_in(line: &[u8]) -> Option<u32>
    ensures { unwrap_or result 0 ≡ splits_of_line line.now }
{
    let word = part_at(line, b' ', 0)?;
    let number = part_at(line, b' ', 2)?;
    if word == b"ingress".as_slice() {
        number_up_to(32, number)
    } else {
        None
    }
}

/// The splits that a line names.
fn splits_of_line(line: &[u8]) -> u64
    ensures { result ≡ splits_of_line line.now }
{
    named_in(line).unwrap_or(0) as u64
}
