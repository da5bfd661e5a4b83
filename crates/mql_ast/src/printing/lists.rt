// Lists with a comma between each two.
ghost use Rattle.std.specs.Prelude.{◌≡◌, ◌++◌, OnOk, string_bytes, map};
ghost use Rattle.mql_ast.specs.Printed.{separated_texts, comma, name_text, item_text, aggregate_text};
ghost use Rattle.mql_ast.specs.Trees.{item_tree};

use crate::names::Name;
use crate::operations::{Aggregate, Item};
use crate::printing::sums::print_sum;
use crate::printing::words::{push_column, push_label};
use std::alloc::AllocError;

/// What stands in a list.
pub trait Print {
    ghost use Rattle.std.specs.Prelude.{List, ℕ};

    ghost text: { Self → List ℕ };

    fn print(&self, out: &mut String) -> Result<(), AllocError>
        ensures text { OnOk result (string_bytes out.new ≡ string_bytes out.old ++ text self.now) };
}

/// The items, with a comma and a blank between each two.
pub fn print_list<T: Print>(out: &mut String, items: &[T]) -> Result<(), AllocError>
    ensures text { OnOk result (string_bytes out.new
        ≡ string_bytes out.old ++ separated_texts comma (map T.text items.now)) }
{
    let Some((first, rest)) = items.split_first() else {
        return Ok(());
    };
    first.print(out)?;
    for item in rest {
        out.push_str(", ")?;
        item.print(out)?;
    }
    Ok(())
}

impl Print for Name {
    ghost text = { name_text };

    fn print(&self, out: &mut String) -> Result<(), AllocError> {
        out.push_str(self.text.as_str())
    }
}

impl Print for Item {
    ghost text = { λ item. item_text (item_tree item) };

    fn print(&self, out: &mut String) -> Result<(), AllocError> {
        push_label(out, &self.name)?;
        print_sum(out, &self.sum)
    }
}

impl Print for Aggregate {
    ghost text = { aggregate_text };

    fn print(&self, out: &mut String) -> Result<(), AllocError> {
        push_label(out, &self.name)?;
        out.push_str(self.fold.word())?;
        out.push_str("(")?;
        push_column(out, &self.column)?;
        out.push_str(")")
    }
}
