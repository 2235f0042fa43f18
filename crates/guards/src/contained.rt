// SPDX-License-Identifier: Apache-2.0 OR MIT
// Whether an amount contains the amount of an asset parameter.
ghost use Rattle.std.specs.Prelude.{◌≡◌, ◌*◌, ◌≤◌, length};
ghost use Rattle.fields.specs.Field.{front};
ghost use Rattle.fields.specs.Table.{fields_at};
ghost use Rattle.walking.specs.Assets.{Assets};
ghost use Rattle.guards.specs.Guards.{contains_inflow};
ghost use Rattle.guards.specs.Members.{members_in, member_inflow};

use fields::bytes::skip;
use fields::front::tag_of;
use fields::named::Named;
use fields::table::TableView;
use tags::{MEMBER, is_expression};
use tokens::inflow::is_listed_inflow;
use walking::parameters::{has_listed_asset, list_assets};
use walking::walk::list_expression;

// As many asset parameters as question 11 allows.
const ASSETS: usize = 64;

// Whether one of the members in the expression at the front of amount, all of which a table has, is an asset parameter's
// `p.amount`. Another table has the asset parameters.
fn has_inflow(entry: &[u8], assets: &TableView<Named>, amount: &[u8], members: &[u16]) -> bool
    requires assets { Assets entry.now assets.now }
    requires members { fields_at amount.now members.now ≡ members_in (front amount.now) }
    ensures { result ≡ member_inflow (front entry.now) (front amount.now) }
{
    members.iter().any(|&m| is_listed_inflow(entry, assets, skip(amount, usize::from(m))))
}

// Whether some asset parameter's `p.amount` stands in the expression at the front of amount. Only a member can be one, and the lent
// table, with a number for each three bytes of the amount, serves for them. A parameter without a name, which question 5 does not
// let pass, is what any expression of another shape names.
pub fn contains_inflow(entry: &[u8], amount: &[u8], scratch: &mut [u16]) -> bool
    requires small { length entry.now ≤ 32768 }
    requires short { length amount.now ≤ 32768 }
    requires room { length amount.now ≤ 3 * length scratch.old }
    ensures { result ≡ contains_inflow (front entry.now) (front amount.now) }
{
    let mut named = [Named::default(); ASSETS];
    let assets = list_assets(entry, &mut named).into_view();
    if has_listed_asset(entry, &assets, &[]) {
        return is_expression(tag_of(amount));
    }
    let members = list_expression(amount, MEMBER, scratch);
    has_inflow(entry, &assets, amount, members.listed())
}
