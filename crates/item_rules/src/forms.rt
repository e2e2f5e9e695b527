ghost use Rattle.std.specs.Prelude.{◌≡◌, ◌+◌, nat_lt, is_some, count_by};
ghost use Rattle.amdl_tree.specs.Items.{kind_item, field_item, host_item, box_item, sends_item, forbid_item};
ghost use Rattle.item_rules.specs.Counts.{has_form, count_of};

use amdl_tree::Item;

/// A form of items whose number is limited, but for classes.
#[derive(Clone, Copy, PartialEq, Eq, Debug)]
pub(crate) enum Form {
    Kind,
    Field,
    Host,
    Instance,
    Sends,
    Forbid,
}

/// Whether one more item of a form is more than a limit. Linear in the items before it.
#[tactic(auto, using(crate::proofs::CountLemmas::is_full))]
pub(crate) fn is_full(before: &[Item], form: Form, limit: usize) -> bool
    ensures { result ≡ nat_lt limit (count_of form before.now + 1) }
{
    limit <= count(before, form)
}

fn count(before: &[Item], form: Form) -> usize
    ensures { result ≡ count_by (has_form form) before.now }
{
    before.iter().filter(|item| has_form(item, form)).count()
}

fn has_form(item: &Item, form: Form) -> bool
    ensures { result ≡ has_form form item.now }
{
    match form {
        Form::Kind => is_kind(item),
        Form::Field => is_field(item),
        Form::Host => is_host(item),
        Form::Instance => is_box(item),
        Form::Sends => is_sends(item),
        Form::Forbid => is_forbid(item),
    }
}

fn is_kind(item: &Item) -> bool
    ensures { result ≡ is_some (kind_item item.now) }
{
    matches!(item, Item::Kind { .. })
}

fn is_field(item: &Item) -> bool
    ensures { result ≡ is_some (field_item item.now) }
{
    matches!(item, Item::Field { .. })
}

fn is_host(item: &Item) -> bool
    ensures { result ≡ is_some (host_item item.now) }
{
    matches!(item, Item::Host { .. })
}

fn is_box(item: &Item) -> bool
    ensures { result ≡ is_some (box_item item.now) }
{
    matches!(item, Item::Instance { .. })
}

fn is_sends(item: &Item) -> bool
    ensures { result ≡ is_some (sends_item item.now) }
{
    matches!(item, Item::Sends { .. })
}

fn is_forbid(item: &Item) -> bool
    ensures { result ≡ is_some (forbid_item item.now) }
{
    matches!(item, Item::Forbid { .. })
}
