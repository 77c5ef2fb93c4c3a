//! The place of a mistake, shown under its line.
ghost use Rattle.std.specs.Prelude.{◌≡◌, ◌-◌, ◌++◌, IfOk, codes, map, take, string_bytes};
ghost use Rattle.std.specs.Str.{chars, encode_utf8_all};
ghost use Rattle.example_program.specs.Carets.{mark};

use combine::stream::position::SourcePosition;
use std::alloc::{AllocError, Global};

/// Returns the line at a place, without its end; nothing where the text has fewer lines.
pub fn line_at(text: &str, place: SourcePosition) -> &str {
    let before = place.line.saturating_sub(1) as usize;
    text.lines().nth(before).unwrap_or("")
}

/// Returns a caret that stands under a column of the line, counted from 1: before it a tab for each tab of the line, and a blank for each other character.
///
/// # Errors
///
/// Where no memory is left.
pub fn caret_under(alloc: Global, line: &str, column: u64) -> Result<String, AllocError>
    ensures { IfOk result (λ caret. string_bytes caret ≡ encode_utf8_all (map mark (take (column - 1) (chars line.now))) ++ codes "^") }
{
    let before = column.saturating_sub(1) as usize;
    let mut caret: String = line.chars().take(before).map(mark).collect(alloc)?;
    caret.push('^')?;
    Ok(caret)
}

/// Returns what stands under a character before the caret.
fn mark(character: char) -> char
    ensures { result ≡ mark character }
{
    if character == '\t' { '\t' } else { ' ' }
}
