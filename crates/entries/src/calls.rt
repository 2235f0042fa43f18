// SPDX-License-Identifier: Apache-2.0 OR MIT
// The payouts, the caller debits and the asset parameters of an entry, listed once by their places in the file. What has no room
// in a table is counted all the same.
ghost use Rattle.std.specs.Prelude.{◌≡◌, ◌+◌, ◌^◌, ◌<◌, Bool, drop};
ghost use Rattle.fields.specs.Field.{Field as Tree, front, parts};
ghost use Rattle.fields.specs.Lists.{Lists};
ghost use Rattle.fields.specs.Row.{shown};
ghost use Rattle.fields.specs.Table.{Listed};
ghost use Rattle.tokens.specs.Numbers.{Standing};
ghost use Rattle.entries.specs.Calls.{places_where, asset_place, asset_places};

use fields::bytes::skip;
use fields::front::parts_of;
use fields::row::{Field, fields_at};
use fields::table::{Table, empty_table};
use tags::PARAMETER;
use walking::parameters::is_asset_parameter;

// Lists those of some calls that pass a test: by each test of fields that answers as it does.
pub fn list_where<'t, F: Fn(&[u8]) -> bool>(
    file: &[u8],
    calls: &[u16],
    test: F,
    table: &'t mut [u16],
) -> Table<'t, u16>
    requires { F.IsAlwaysCallable test }
    ensures same_reference { result.items.ghost_name ≡ table.entry.ghost_name }
    ensures listed { (passes : Tree → Bool) → ((s : _) (r : _) → F.post test s r → r ≡ passes (front s.now))
        → Listed (places_where file.now passes calls.now) table.old 0 result.items.now result.count }
{
    let mut places = empty_table(table);
    for &call in calls {
        if test(skip(file, usize::from(call))) {
            places.note(call);
        }
    }
    places
}

// Lists a field's place where it is an asset parameter.
#[tactic(auto, unfolding(crate::specs::Calls::asset_place))]
fn list_parameter(field: &Field, places: &mut Table<u16>)
    requires place { field.now.place < 65536 }
    requires room { places.old.count + 1 < 2 ^ 64 }
    ensures { Lists (asset_place (shown field.now)) places.old places.new }
{
    if field.tag() != PARAMETER {
        return;
    }
    if !is_asset_parameter(field.part) {
        return;
    }
    // By `as`: the place is small by the contract, and try_from would have an error that cannot be.
    places.note(field.place as u16);
}

// Lists the asset parameters of the entry at a place of the file.
pub fn list_parameters(file: &[u8], place: usize, places: &mut Table<u16>)
    requires { Standing file.now place places.old.count }
    ensures { Lists (asset_places (place + 3) (parts (front (drop place file.now)))) places.old places.new }
{
    for field in fields_at(parts_of(skip(file, place)), place + 3) {
        list_parameter(&field, places);
    }
}
