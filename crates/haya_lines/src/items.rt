//! What stands between a line's tabs, one item after the other. Contracts see the items that are
//! left as a list.
ghost use Rattle.std.specs.Prelude.{◌≡◌, ◌∷◌, option_map};
ghost use Rattle.std.specs.Iterator.{YieldsFirstBy, item_count};
ghost use Rattle.haya_lines.specs.Items.{items, items_left};

use std::marker::Model;

/// The items of a line that are left, in order.
#[derive(Drop)]
pub struct Items<'a> {
    // The line from its next item on, while it has one.
    left: Option<&'a str>,
}

impl<'a> Model for Items<'a> {
    ghost use Rattle.std.specs.Prelude.{List, ℕ, option_map};
    ghost use Rattle.haya_lines.specs.Items.{items_left};

    ghost Value = { List (List ℕ) };

    ghost view = { λ i. items_left (option_map (λ t. t.now) i.left) };
}

impl<'a> Iterator for Items<'a> {
    type Item = &'a str;

    ghost next_gives = { YieldsFirstBy (λ item. item.now) (λ left. left) };

    ghost remaining = { item_count (λ left. left) };

    fn next(&mut self) -> Option<&'a str> {
        let (item, left) = split_item(self.left?);
        self.left = left;
        Some(item)
    }
}

/// The items of a line, in order. Takes no memory.
pub fn split_line(line: &str) -> Items<'_>
    ensures { result ≡ items line.now }
{
    Items { left: Some(line) }
}

// The first item of a text, and the text behind the tab that ends it, if one does.
fn split_item(text: &str) -> (&str, Option<&str>)
    ensures { items text.now ≡ result.0.now ∷ items_left (option_map (λ t. t.now) result.1) }
{
    match text.split_once('\t') {
        Some((item, left)) => (item, Some(left)),
        None => (text, None),
    }
}
