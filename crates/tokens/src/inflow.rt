// SPDX-License-Identifier: Apache-2.0 OR MIT
// What comes in with an asset parameter, and the calls that credit it.
ghost use Rattle.std.specs.Prelude.{◌≡◌};
ghost use Rattle.fields.specs.Field.{front};
ghost use Rattle.walking.specs.Assets.{Assets};
ghost use Rattle.tokens.specs.Tokens.{is_inflow, is_credit, is_funding};

use fields::bytes::same_bytes;
use fields::front::part_of;
use fields::named::Named;
use fields::table::TableView;
use walking::backer::asset_amount_backer;
use walking::parameters::{has_asset_parameter, has_listed_asset};
use walking::peel::peel;
use walking::shape::{method, receiver};

// Whether `p.amount` stands at the front of s, p an asset parameter of the entry.
pub fn is_inflow(entry: &[u8], s: &[u8]) -> bool
    ensures { result ≡ is_inflow (front entry.now) (front s.now) }
{
    has_asset_parameter(entry, asset_amount_backer(s))
}

// The same by the table in which the asset parameters of the entry are listed.
pub fn is_listed_inflow(entry: &[u8], assets: &TableView<Named>, s: &[u8]) -> bool
    requires { Assets entry.now assets.now }
    ensures { result ≡ is_inflow (front entry.now) (front s.now) }
{
    has_listed_asset(entry, assets, asset_amount_backer(s))
}

// Whether a call of a member credit, set or insert stands at the front of s.
pub fn is_credit(s: &[u8]) -> bool
    ensures { result ≡ is_credit (front s.now) }
{
    let name = method(s);
    same_bytes(name, b"credit") | same_bytes(name, b"set") | same_bytes(name, b"insert")
}

// Whether it credits the map, with a second argument, peeled, `p.amount`.
pub fn is_funding(map: &[u8], entry: &[u8], s: &[u8]) -> bool
    ensures { result ≡ is_funding map.now (front entry.now) (front s.now) }
{
    if !is_credit(s) {
        return false;
    }
    if !same_bytes(receiver(s), map) {
        return false;
    }
    is_inflow(entry, peel(part_of(s, 2)))
}
