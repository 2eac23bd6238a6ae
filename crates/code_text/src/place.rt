// The first place of a text at which something can't stand, for both sorts of text: one code, and the lines of a listing.
ghost use Rattle.std.specs.Prelude.{◌≡◌, [], get_or};
ghost use Rattle.paper.specs.CodeText.{line_places, can_stand, can_end};
ghost use Rattle.code_text.specs.CodeText.{sort_of, FoundWrong};

use crate::character::value;

// An enum, as the paper has it (`sort_of`): what can stand at a place and whether the text can end there are asked of one sort.
#[derive(Clone, Copy, Debug, PartialEq, Eq)]
pub(crate) enum Sort {
    OneCode,
    Lines,
}

// The place of a line that a place of the text is; 12 behind the eighth character of a code, where nothing stands.
fn place_in_line(sort: Sort, i: usize) -> usize
    ensures { get_or line_places result [] ≡ can_stand (sort_of sort) i }
{
    match sort {
        Sort::OneCode => { if i < 8 { i } else { 12 } }
        Sort::Lines => i % 12,
    }
}

// Whether the text can end there.
fn can_end(sort: Sort, i: usize) -> bool
    ensures { result ≡ can_end (sort_of sort) i }
{
    match sort {
        Sort::OneCode => i == 8,
        Sort::Lines => i % 12 == 0,
    }
}

// The first place of the text at which something can't stand, its end counting as its length.
pub(crate) fn first_wrong(sort: Sort, text: &[u8]) -> Option<usize>
    ensures { FoundWrong (sort_of sort) text.now result }
{
    for (i, c) in text.iter().enumerate() {
        if value(place_in_line(sort, i), *c).is_none() {
            return Some(i);
        }
    }
    if can_end(sort, text.len()) {
        None
    } else {
        Some(text.len())
    }
}
