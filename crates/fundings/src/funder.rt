// SPDX-License-Identifier: Apache-2.0 OR MIT
// An entry whose calls may fund maps.
ghost use Rattle.std.specs.Prelude.{◌≡◌, drop};
ghost use Rattle.walking.specs.Assets.{Assets};

use fields::named::Named;
use fields::table::TableView;
use tokens::entry::EntryPlace;
use walking::parameters::list_assets;

// Where it stands, and its asset parameters.
#[derive(Clone, Copy)]
pub struct Funder<'a, 't> {
    pub entry: EntryPlace<'a>,
    pub assets: TableView<'t, Named>,
    ghost listed: { Assets (drop entry.place entry.file.now) assets },
}

// The entry with its asset parameters, which are listed in the lent table.
pub fn list_funder<'a, 't>(entry: &EntryPlace<'a>, assets: &'t mut [Named]) -> Funder<'a, 't>
    ensures { result.entry ≡ entry.now }
{
    Funder {
        entry: *entry,
        assets: list_assets(entry.part(), assets).into_view(),
    }
}
