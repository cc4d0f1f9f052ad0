//! Whether an object has a member twice.
ghost use Rattle.std.specs.Prelude.{◌≡◌, ◌↔◌, map, IfOk, IsSorted, IsTrue, OnOk};
ghost use Rattle.std.specs.Cmp.Lexicographic.{slice_cmp};
ghost use Rattle.std.specs.Ordering.{nat_cmp};
ghost use Rattle.json.specs.Strict.{AreDistinct, HasUniqueKeys, ItemsHaveUniqueKeys};
ghost use Rattle.json.specs.Strict.{MembersHaveUniqueKeys, keys};
ghost use Rattle.json.specs.Value.{items_view, members_view, value_view};

use json::Value;
use std::alloc::AllocError;

// More names than these are sorted, so that no object takes the square of their number.
const MAX_UNSORTED: usize = 32;

/// Whether no object in the value, at any depth, has a member twice. The names of one object at a
/// time are put into `names`.
#[cycle(unique)]
pub fn has_unique_names<'a>(json: &Value<'a>, names: &mut Vec<&'a str>) -> Result<bool, AllocError>
    ensures { IfOk result (λ b. IsTrue b ↔ HasUniqueKeys (value_view json.now)) }
{
    match json {
        Value::Array(items) => have_unique_names(items, names),
        Value::Object(members) => {
            copy_names(members, names)?;
            Ok(are_distinct(names) && members_have_unique_names(members, names)?)
        }
        _ => Ok(true),
    }
}

// The same of all items.
#[cycle(unique)]
fn have_unique_names<'a>(
    items: &Vec<Value<'a>>,
    names: &mut Vec<&'a str>,
) -> Result<bool, AllocError>
    ensures { IfOk result (λ b. IsTrue b ↔ ItemsHaveUniqueKeys (items_view items.now.items)) }
{
    'items: for item in items {
        if !has_unique_names(item, names)? {
            return Ok(false);
        }
    }
    Ok(true)
}

// The same of the values of all members.
#[cycle(unique)]
fn members_have_unique_names<'a>(
    members: &Vec<(&'a str, Value<'a>)>,
    names: &mut Vec<&'a str>,
) -> Result<bool, AllocError>
    ensures { IfOk result (λ b.
        IsTrue b ↔ MembersHaveUniqueKeys (members_view members.now.items)) }
{
    'members: for member in members {
        if !has_unique_names(&member.1, names)? {
            return Ok(false);
        }
    }
    Ok(true)
}

// The names of members, in the place of those that were there.
fn copy_names<'a>(
    members: &Vec<(&'a str, Value<'a>)>,
    names: &mut Vec<&'a str>,
) -> Result<(), AllocError>
    ensures { OnOk result (map (λ name. name.now) names.new.items
        ≡ keys (members_view members.now.items)) }
{
    names.clear();
    'members: for member in members {
        names.push(member.0)?;
    }
    Ok(())
}

// Whether no two of these names are equal. It may change their order.
fn are_distinct(names: &mut [&str]) -> bool
    ensures { IsTrue result ↔ AreDistinct (map (λ name. name.now) names.old) }
{
    if names.len() <= MAX_UNSORTED {
        return each_is_new(names);
    }
    names.sort_unstable();
    neighbours_differ(names)
}

// Whether no name is one of those before it.
fn each_is_new(names: &[&str]) -> bool
    ensures { IsTrue result ↔ AreDistinct (map (λ name. name.now) names.now) }
{
    'names: for at in 0..names.len() {
        if names[..at].contains(&names[at]) {
            return false;
        }
    }
    true
}

// Whether each name differs from the one before it.
fn neighbours_differ(names: &[&str]) -> bool
    requires { IsSorted (λ a b. slice_cmp nat_cmp a.now b.now) names.now }
    ensures { IsTrue result ↔ AreDistinct (map (λ name. name.now) names.now) }
{
    'names: for at in 1..names.len() {
        if names[at - 1] == names[at] {
            return false;
        }
    }
    true
}
