// Appends items to lists.
ghost use Rattle.std.specs.Prelude.{◌≡◌, ◌++◌, OnOk, Some};
ghost use Rattle.std.specs.Option.{option_to_list};
ghost use Rattle.rb_bytes.specs.Lists.{Gains};

use crate::fault::NoMemory;

/// Appends `item` if it is present.
pub fn push_some<T: Copy>(list: &mut Vec<T>, item: Option<T>) -> Result<(), NoMemory>
    ensures is { OnOk result (list.new.items ≡ list.old.items ++ option_to_list item) }
    ensures gains { OnOk result (Gains list.old.items list.new.items (λ x. item ≡ Some x)) }
{
    if let Some(item) = item {
        list.push(item)?;
    }
    Ok(())
}
