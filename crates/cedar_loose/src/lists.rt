// Additions to lists of what was read. They aren't inlined, as `expressions` says.
ghost use Rattle.std.specs.Prelude.{◌≡◌, ◌++◌, [], ◌∷◌, IfOk};

use std::alloc::AllocError;

/// Adds an item at the end; refused for memory alone.
#[inline(never)]
pub(crate) fn add<T: Drop>(items: &mut Vec<T>, item: T) -> Result<(), AllocError>
    ensures { IfOk result (λ _. items.new.items ≡ items.old.items ++ (item ∷ [])) }
{
    Ok(items.push(item)?)
}

/// Adds the item of the box at the end; refused for memory alone.
#[inline(never)]
pub(crate) fn add_boxed<T: Drop>(items: &mut Vec<T>, item: Box<T>) -> Result<(), AllocError>
    ensures { IfOk result (λ _. items.new.items ≡ items.old.items ++ (item.value ∷ [])) }
{
    Ok(items.push(Box::into_inner(item))?)
}

/// Adds the operand of the box at the end, and the operator before it; refused for memory alone.
#[inline(never)]
pub(crate) fn add_link<O: Copy + Drop, T: Drop>(
    links: &mut Vec<(O, T)>,
    operator: O,
    operand: Box<T>,
) -> Result<(), AllocError>
    ensures { IfOk result (λ _. links.new.items ≡ links.old.items ++ ((operator, operand.value) ∷ [])) }
{
    Ok(links.push((operator, Box::into_inner(operand)))?)
}
