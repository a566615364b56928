// One step from a pointer, a slice or a text of an archive.
ghost use Rattle.std.specs.Prelude.{◌≡◌};
ghost use Rattle.format.specs.Archive.{found_items, is_valid_deep as is_valid_deep_by};
ghost use Rattle.refusal.specs.Told.{told, told_by};
ghost use Rattle.kind.specs.Finds.{found_of};
ghost use Rattle.plate_archive.specs.Archives.{text, text_of, items_at as items_by, root, root_place, place_of, items_of};
ghost use Rattle.plate_archive.specs.Told.{span_of, IsItems};

use crate::roots::{Root, Slice, Text, pointer_to};
use archive::{get, is_valid_deep};
use kind::{Found, Kind};
use refusal::Refusal;
use std::str::from_utf8;

// Texts or lists side by side: the place of the first, and how many.
#[derive(Clone, Copy)]
pub struct Items {
    pub place: usize,
    pub count: u32,
}

// The items that are found from a slice.
fn span(found: Found<'_>) -> Items
    requires { IsItems (found_of found) }
    ensures { found_of found.entry ≡ found_items (span_of result) }
{
    match found {
        Found::Items { place, count } => Items { place, count },
        // No other case is found from a slice.
        _ => unreachable!(),
    }
}

// Where a list is.
#[tactic(auto, unfolding(crate::specs::Archives::place_of))]
pub(crate) fn place<R: Root>(archive: &[u8]) -> Result<usize, Refusal>
    ensures { told result ≡ place_of R.which archive.now }
{
    match get(&pointer_to::<R>(), archive, R::which().place())? {
        Found::Target { place } => Ok(place),
        // No other case is found from a pointer.
        _ => unreachable!(),
    }
}

// Where the items of the slice at a place are, and how many.
fn items_at<K: Kind + Drop>(item: K, archive: &[u8], place: usize) -> Result<Items, Refusal>
    ensures { told_by span_of result ≡ items_by (K.Kind.meaning item) archive.now place }
{
    let found = get(&Slice::new(item), archive, place)?;
    Ok(span(found))
}

// Reads all that the pointer to a list leads to.
fn read<R: Root>(archive: &[u8]) -> Result<usize, Refusal>
    ensures { told result ≡ is_valid_deep_by (root R.which) archive.now (root_place R.which) }
{
    is_valid_deep(&pointer_to::<R>(), archive, R::which().place())
}

// Reads all of one list, and tells its items.
#[tactic(auto, unfolding(crate::specs::Archives::items_of))]
pub(crate) fn checked<R: Root>(archive: &[u8]) -> Result<Items, Refusal>
    ensures { told_by span_of result ≡ items_of R.which archive.now }
{
    read::<R>(archive)?;
    items_at(R::item(), archive, place::<R>(archive)?)
}

// The texts of the slice at a place.
pub fn texts_at(archive: &[u8], place: usize) -> Result<Items, Refusal>
    ensures { told_by span_of result ≡ items_by text archive.now place }
{
    items_at(Text::new(), archive, place)
}

// The text at a place, which is the part of the archive itself.
pub fn text_at(archive: &[u8], place: usize) -> Result<&str, Refusal>
    ensures { told_by (λ x. x.now) result ≡ text_of archive.now place }
{
    match get(&Text::new(), archive, place)? {
        // It was found to be text.
        Found::Text(part) => Ok(from_utf8(part.bytes).unwrap()),
        // No other case is found from a text.
        _ => unreachable!(),
    }
}
