// The words of the sheet of a slice of texts.
ghost use Rattle.std.specs.Prelude.{◌≡◌, map};
ghost use Rattle.refusal.specs.Told.{told_by};
ghost use Rattle.format.specs.Answers.{inside};
ghost use Rattle.format.specs.Sheets.{read_at, text_form};
ghost use Rattle.sheet.specs.Words.{word_of, read_of};
ghost use Rattle.plate_lists.specs.Lists.{count_of, list_words as list_words_by, ReadsBack, ScansAsKind};
ghost use Rattle.plate_lists.specs.Told.{Tells};

use crate::error::ListError;
use refusal::Refusal;
use sheet::{Form, Read, Word};
use std::alloc::Global;

// How many values follow a word.
fn followers(word: Word<'_>) -> u32
    ensures { result ≡ count_of (word_of word.entry) }
{
    match word {
        Word::Number { .. } | Word::Text { .. } => 0,
        Word::Count { count, .. } => count,
    }
}

// The text at a place, which the slice holds.
fn held_text(sheet: &[u8], at: usize) -> Result<Read<'_>, Refusal>
    ensures { told_by read_of result ≡ inside (read_at text_form sheet.now at) }
{
    sheet::read(sheet, at, Form::Text).map_err(Refusal::deeper)
}

// A word for each text; that the slice itself stands at the front and nothing behind it is checked too.
pub fn list_words(heap: Global, sheet: &[u8]) -> Result<Vec<Word<'_>>, ListError>
    ensures told { Tells (λ v. map word_of v.items) result (list_words_by sheet.now) }
    ensures back { ReadsBack sheet.now }
    ensures kind { ScansAsKind sheet.now }
{
    let slice = sheet::read(sheet, 0, Form::Slice)?;
    let mut words = Vec::new(heap);
    // The place is kept by hand: where a text ends, the next begins.
    let mut at = slice.end;
    for _ in 0..followers(slice.word) {
        let text = held_text(sheet, at)?;
        words.push(text.word)?;
        at = text.end;
    }
    sheet::ended(sheet, at)?;
    Ok(words)
}
