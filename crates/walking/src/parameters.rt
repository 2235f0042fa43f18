// SPDX-License-Identifier: Apache-2.0 OR MIT
// The asset parameters of an entry: those whose type name is Q_Asset. A name is a part of the file.
ghost use Rattle.std.specs.Prelude.{◌≡◌, ◌≤◌, ◌+◌, ◌^◌, ◌<◌, length};
ghost use Rattle.laws.specs.Lists.{any};
ghost use Rattle.laws.specs.Texts.{same_bytes};
ghost use Rattle.fields.specs.Field.{front};
ghost use Rattle.fields.specs.Number.{short_number};
ghost use Rattle.fields.specs.Row.{shown};
ghost use Rattle.fields.specs.Table.{Listed};
ghost use Rattle.fields.specs.Lists.{Lists};
ghost use Rattle.walking.specs.Walking.{is_asset_parameter, asset_params};
ghost use Rattle.walking.specs.Assets.{named_parameter, named_assets, named_by, Assets};

use fields::bytes::{same_bytes, skip};
use fields::front::{part_of, parts_of, text_of};
use fields::named::Named;
use fields::number::short_number;
use fields::row::{Field, fields_at};
use fields::table::{Table, TableView, empty_table};
use model::name_of;
use tags::PARAMETER;

// A table of so many has room for the asset parameters of every entry of a file that passes the questions: each takes 17 bytes at
// least.
pub const MOST_ASSETS: usize = 1928;

// Whether the parameter at the front of s is an asset parameter.
pub fn is_asset_parameter(s: &[u8]) -> bool
    ensures { result ≡ is_asset_parameter (front s.now) }
{
    same_bytes(text_of(part_of(s, 1)), b"Q_Asset")
}

// Whether the entry at the front of s has an asset parameter of that name.
pub fn has_asset_parameter(s: &[u8], name: &[u8]) -> bool
    ensures { result ≡ any (same_bytes name.now) (asset_params (front s.now)) }
{
    fields_at(parts_of(s), 0)
        .filter(|f| f.tag() == PARAMETER)
        .filter(|f| is_asset_parameter(f.part))
        .any(|f| same_bytes(name, name_of(f.part)))
}

// Lists a field where it is an asset parameter. A field stands anywhere, so that its place is small is a clause of what lists it in
// two bytes.
fn list_asset(field: &Field, assets: &mut Table<Named>)
    requires place { field.now.place < 65536 }
    requires room { assets.old.count + 1 < 2 ^ 64 }
    ensures { Lists (named_parameter (shown field.now)) assets.old assets.new }
{
    if field.tag() != PARAMETER {
        return;
    }
    if !is_asset_parameter(field.part) {
        return;
    }
    assets.note(Named {
        number: short_number(name_of(field.part)),
        // By `as`: the place is small by the contract, and try_from would have an error that cannot be.
        place: field.place as u16,
    });
}

// Lists the asset parameters of the entry at the front of s, as far as the table has room.
pub fn list_assets<'t>(s: &[u8], table: &'t mut [Named]) -> Table<'t, Named>
    requires { length s.now ≤ 32768 }
    ensures same_reference { result.items.ghost_name ≡ table.entry.ghost_name }
    ensures listed { Listed (named_assets (front s.now)) table.old 0 result.items.now result.count }
{
    let mut assets = empty_table(table);
    for field in fields_at(parts_of(s), 3) {
        list_asset(&field, &mut assets);
    }
    assets
}

// Whether what is listed of an asset parameter of the entry at the front of s has that name. A name is read only where its number
// is equal. What else is listed by such numbers, funded maps and lowerings, has its name elsewhere: one function of all would be
// handed how to read it, and be no shorter.
fn is_named(s: &[u8], asset: &Named, number: u16, name: &[u8]) -> bool
    requires { number ≡ short_number name.now }
    ensures { result ≡ named_by s.now name.now asset.now }
{
    if asset.number != number {
        return false;
    }
    same_bytes(name, name_of(skip(s, usize::from(asset.place))))
}

// Whether the entry at the front of s has an asset parameter of that name, by the table in which they were listed: it may have had
// too little room. Only where the numbers of two names are equal are they compared.
pub fn has_listed_asset(s: &[u8], assets: &TableView<Named>, name: &[u8]) -> bool
    requires { Assets s.now assets.now }
    ensures { result ≡ any (same_bytes name.now) (asset_params (front s.now)) }
{
    if assets.items.len() < assets.count {
        return has_asset_parameter(s, name);
    }
    let number = short_number(name);
    assets.listed().iter().any(|a| is_named(s, a, number, name))
}
