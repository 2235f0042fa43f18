// SPDX-License-Identifier: Apache-2.0 OR MIT
// The maps of a file that some call funds, listed once, and a map's token by a look-up among them.
ghost use Rattle.std.specs.Prelude.{◌≡◌, [], ◌∷◌, ◌*◌, ◌≤◌, ◌<◌, length, drop, position, OnOk};
ghost use Rattle.laws.specs.Texts.{same_bytes};
ghost use Rattle.fields.specs.Field.{front};
ghost use Rattle.fields.specs.Number.{short_number};
ghost use Rattle.fields.specs.Table.{fields_at as fields_there};
ghost use Rattle.walking.specs.Table.{placed_at};
ghost use Rattle.walking.specs.Walking.{ident};
ghost use Rattle.tokens.specs.Numbers.{joined, tokens_number};
ghost use Rattle.fundings.specs.Fundings.{is_funding_call, is_map, number_of_map};
ghost use Rattle.fundings.specs.Fundings.{Joins, EntryJoins, EachMap};
ghost use Rattle.fundings.specs.Funder.{entry_of, CallsJoin};

pub use super::funder::Funder;
use super::funder::list_funder;
use arrayvec::{ArrayVec, CapacityError};
use fields::bytes::{same_bytes, skip};
use fields::front::part_of;
use fields::named::Named;
use fields::number::short_number;
use fields::row::fields_at;
use tags::{CALL, ENTRY};
use tokens::entry::{EntryPlace, entry_at};
use tokens::inflow::{is_credit, is_listed_inflow};
use tokens::number::{join, tokens_number};
use walking::parameters::MOST_ASSETS;
use walking::peel::peel;
use walking::shape::ident;
use walking::walk::list_body;

// Almost every entry has a handful of calls, which find room in a small table of this size.
const FEW: usize = 256;

// What is listed of a map that some call funds: the short number of its name, the place where such a call names it, and the set of
// tokens that the entries with such calls name.
#[derive(Clone, Copy, Default)]
pub struct Funding {
    pub number: u16,
    pub place: u16,
    pub tokens: u16,
}

// How many maps find room: a call that funds one takes 31 bytes at least.
const MOST_MAPS: usize = 1057;

// The listed maps, each once.
pub type Fundings = ArrayVec<Funding, MOST_MAPS>;

// Whether the call at a place of the file funds some map, in the entry.
fn is_funding_call(funder: &Funder, call: usize) -> bool
    ensures { result ≡ is_funding_call (entry_of funder.now) (front (drop call funder.now.entry.file.now)) }
{
    let s = skip(funder.entry.file, call);
    if !is_credit(s) {
        return false;
    }
    is_listed_inflow(funder.entry.part(), &funder.assets, peel(part_of(s, 2)))
}

// The first of the calls at some places of the file that funds some map, by its index among them.
fn first_funding(funder: &Funder, calls: &[u16]) -> Option<usize>
    ensures { result ≡ position (λ call. is_funding_call (entry_of funder.now) (front (drop call funder.now.entry.file.now))) calls.now }
{
    calls
        .iter()
        .position(|&call| is_funding_call(funder, usize::from(call)))
}

// Whether what is listed is the map, whose name has that number. A name is read only where its number is equal (of other names
// listed so, see is_named of crates/walking).
fn is_map(file: &[u8], map: &[u8], number: u16, listed: &Funding) -> bool
    requires { number ≡ short_number map.now }
    ensures { result ≡ is_map file.now map.now listed.now }
{
    if listed.number != number {
        return false;
    }
    same_bytes(ident(skip(file, usize::from(listed.place))), map)
}

// The first of the listed maps that is the map, by its index. The map's name comes from a call, and the file is where the listed
// names are.
fn find_map(file: &[u8], map: &[u8], maps: &[Funding]) -> Option<usize>
    ensures { result ≡ position (is_map file.now map.now) maps.now }
{
    let number = short_number(map);
    maps.iter()
        .position(|listed| is_map(file, map, number, listed))
}

// The set of a map by the listed maps; the empty one where it is not listed.
pub fn number_of_map(file: &[u8], map: &[u8], maps: &[Funding]) -> usize
    ensures { result ≡ number_of_map file.now map.now maps.now }
{
    let number = short_number(map);
    maps.iter()
        .find(|listed| is_map(file, map, number, listed))
        .map_or(0, |listed| usize::from(listed.tokens))
}

// Two sets together, as the tables have them.
fn join_tokens(file: &[u8], a: u16, b: u16) -> u16
    ensures { result ≡ joined file.now a b }
{
    // Two bytes hold what two numbers of two bytes give: try_from would have to answer for what can't be.
    join(file, usize::from(a), usize::from(b)) as u16
}

// What an entry names, as the tables have it.
fn named_tokens(entry: &EntryPlace, scratch: &mut [u16]) -> u16
    requires { length entry.now.file.now ≤ 3 * length scratch.old }
    ensures { result ≡ tokens_number entry.now.file.now (placed_at entry.now.file.now entry.now.place) }
{
    // tokens_number says that it is small: try_from would have to answer for what can't be.
    tokens_number(entry, scratch) as u16
}

// Joins a set to that of the map whose name stands at a place. A map that is not listed yet is listed; an error says that there is
// no room.
fn join_map(
    file: &[u8],
    place: usize,
    named: u16,
    maps: &mut Fundings,
) -> Result<(), CapacityError<Funding>>
    requires { place < 65536 }
    ensures { OnOk result (Joins file.now (same_bytes (ident (front (drop place file.now)))) named maps.old.items maps.new.items) }
{
    let map = ident(skip(file, place));
    if let Some(at) = find_map(file, map, maps.as_slice()) {
        maps[at].tokens = join_tokens(file, maps[at].tokens, named);
        return Ok(());
    }
    maps.try_push(Funding {
        number: short_number(map),
        // The contract has it small: try_from would have to answer for what can't be.
        place: place as u16,
        tokens: named,
    })
}

// The same of a call of the entry, which may fund no map. One that does names it behind two heads, its own and its callee's.
fn list_call(
    funder: &Funder,
    named: u16,
    call: usize,
    maps: &mut Fundings,
) -> Result<(), CapacityError<Funding>>
    ensures { OnOk result (CallsJoin funder.now (front (drop call funder.now.entry.file.now) ∷ []) named maps.old.items maps.new.items) }
{
    if !is_funding_call(funder, call) {
        return Ok(());
    }
    join_map(funder.entry.file, call + 6, named, maps)
}

// The same of the calls at some places of the file.
fn list_calls(
    funder: &Funder,
    named: u16,
    calls: &[u16],
    maps: &mut Fundings,
) -> Result<(), CapacityError<Funding>>
    ensures { OnOk result (CallsJoin funder.now (fields_there funder.now.entry.file.now calls.now) named maps.old.items maps.new.items) }
{
    for &call in calls {
        list_call(funder, named, usize::from(call), maps)?;
    }
    Ok(())
}

// The same of all calls of an entry that has many. What it names is worked out first, since the scratch table serves for both.
fn list_many(
    funder: &Funder,
    maps: &mut Fundings,
    scratch: &mut [u16],
) -> Result<(), CapacityError<Funding>>
    requires { length funder.now.entry.file.now ≤ 3 * length scratch.old }
    ensures { OnOk result (EntryJoins funder.now.entry.file.now funder.now.entry.place maps.old.items maps.new.items) }
{
    let named = named_tokens(&funder.entry, scratch);
    let calls = list_body(funder.entry.file, funder.entry.place, CALL, scratch);
    list_calls(funder, named, calls.listed(), maps)
}

// The same of any entry. One without asset parameters funds nothing, so its body is not walked, and what an entry names is worked
// out only where a call asks for it.
fn list_entry(
    entry: &EntryPlace,
    maps: &mut Fundings,
    assets: &mut [Named],
    scratch: &mut [u16],
) -> Result<(), CapacityError<Funding>>
    requires { length entry.now.file.now ≤ 3 * length scratch.old }
    ensures { OnOk result (EntryJoins entry.now.file.now entry.now.place maps.old.items maps.new.items) }
{
    let funder = list_funder(entry, assets);
    if funder.assets.count == 0 {
        return Ok(());
    }
    let mut few = [0u16; FEW];
    let calls = list_body(entry.file, entry.place, CALL, &mut few);
    if FEW < calls.count {
        return list_many(&funder, maps, scratch);
    }
    let Some(first) = first_funding(&funder, calls.listed()) else {
        return Ok(());
    };
    let named = named_tokens(entry, scratch);
    list_calls(&funder, named, skip(calls.listed(), first), maps)
}

// Lists all maps of the file that some call funds, in place of what was listed before; an error says that one found no room. There
// is room for those of every file that passes the questions. The scratch table has a number for each three bytes of the file.
pub fn list_fundings(
    file: &[u8],
    maps: &mut Fundings,
    scratch: &mut [u16],
) -> Result<(), CapacityError<Funding>>
    requires short { length file.now ≤ 32768 }
    requires room { length file.now ≤ 3 * length scratch.old }
    ensures { OnOk result (EachMap file.now maps.new.items) }
{
    maps.clear();
    let mut assets = [Named::default(); MOST_ASSETS];
    for field in fields_at(file, 0) {
        if field.tag() != ENTRY {
            continue;
        }
        let entry = entry_at(file, field.place);
        list_entry(&entry, maps, &mut assets, scratch)?;
    }
    Ok(())
}
