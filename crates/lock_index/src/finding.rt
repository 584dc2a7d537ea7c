ghost use Rattle.std.specs.Prelude.{◌≡◌, option_copied};
ghost use Rattle.std.specs.List.{find};
ghost use Rattle.lock_entry.specs.Names as names;
ghost use Rattle.lock_entry.specs.Barring.{bars};
ghost use Rattle.lock_entry.specs.Turning.{name_at};
ghost use Rattle.lock_index.specs.Searches as searches;
ghost use Rattle.lock_index.specs.Slots.{live};

use crate::search::Search;
use crate::shelf::Shelf;
use enq_base::Owner;
use lock_entry::{Asked, Asker, Entry, LockName, Mode};

/// The oldest entry that is looked for.
pub fn oldest_entry<'a>(shelf: &'a Shelf, search: &Search) -> Option<&'a Entry>
    ensures { option_copied result ≡ find (searches.finds search.now) (live shelf.now) }
{
    match shelf.oldest(search) {
        Some(place) => shelf.standing(place),
        None => None,
    }
}

/// The entry of this name.
pub fn find_entry<'a>(shelf: &'a Shelf, name: &LockName) -> Option<&'a Entry>
    ensures { option_copied result ≡ find (names.has_name name.now) (live shelf.now) }
{
    match shelf.place_of(name) {
        Some(place) => shelf.standing(place),
        None => None,
    }
}

/// Whether an entry of this name stands.
pub fn stands(shelf: &Shelf, name: &LockName) -> bool
    ensures { result ≡ names.stands (live shelf.now) name.now }
{
    find_entry(shelf, name).is_some()
}

/// The count of the entry of this name, or 0.
pub fn count_at(shelf: &Shelf, name: &LockName) -> u16
    ensures { result ≡ names.count_at (live shelf.now) name.now }
{
    match find_entry(shelf, name) {
        Some(entry) => entry.count,
        None => 0,
    }
}

/// The oldest entry that bars what is asked for.
pub fn bar<'a>(shelf: &'a Shelf, asker: &Asker, asked: &Asked) -> Option<&'a Entry>
    ensures { option_copied result ≡ find (bars asker.now asked.now) (live shelf.now) }
{
    oldest_entry(shelf, &Search::Bars { asker, asked })
}

/// The name of the owner's entry at the table and the argument in this mode.
pub fn name_in(mode: Mode, owner: &Owner, asked: &Asked) -> LockName
    ensures { result ≡ name_at mode owner.now asked.now.table asked.now.pattern }
{
    LockName {
        owner: *owner,
        asked: Asked {
            table: asked.table,
            pattern: asked.pattern,
            mode,
        },
    }
}
