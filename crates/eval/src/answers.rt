// What is asked of a query in a filter's code: whether it finds a node, how many, its value, or the value of its first node. `length` is asked of that value.
ghost use Rattle.std.specs.Prelude.{◌≡◌, true, false, ◌<◌};
ghost use Rattle.eval_values.specs.Means.{some_of};
ghost use Rattle.eval_asks.specs.Asks.{is_function, AskNodes, OfFunction, OfFirst, AskAnswer, DoneAnswer};

use eval_items::Regs;
use eval_values::{Operand, operands};
use plan_format::kinds::{COUNT, TEST, VALUE};

// Whether the byte behind a query is that of a function of its nodes.
fn is_function(mode: u8) -> bool
    ensures { result ≡ is_function mode }
{
    if mode == COUNT {
        return true;
    }
    mode == VALUE
}

// What a function gives of a query that found n nodes, counted up to its cap, of which the first is given.
fn eval_function(table: &[u8], text: &[u8], mode: u8, n: usize, first: usize) -> Operand
    requires { AskNodes table.now text.now n first }
    ensures { OfFunction table.now text.now mode n first result }
{
    if mode == COUNT {
        let count = n as i64;
        return Operand::Int(count);
    }
    if n == 1 {
        return operands::get_value(table, text, first);
    }
    Operand::Null
}

// The value of the first node, if there is one.
fn first_value(table: &[u8], text: &[u8], n: usize, first: usize) -> Operand
    requires { AskNodes table.now text.now n first }
    ensures { OfFirst table.now text.now n first result }
{
    if 0 < n {
        return operands::get_value(table, text, first);
    }
    Operand::Nothing
}

// The registers behind a query that found n nodes, counted up to its cap, of which the first is given. Its code ends at z, where the mode stands.
pub fn to_registers(
    table: &[u8],
    text: &[u8],
    s: Regs,
    mode: u8,
    z: usize,
    n: usize,
    first: usize,
) -> Regs
    requires { AskAnswer table.now text.now s z n first }
    ensures { DoneAnswer table.now text.now s mode z n first result }
{
    let acc = s.acc;
    let x = s.y;
    let next = z + 1;
    if mode == TEST {
        let b = 0 < n;
        return Regs {
            acc: b,
            x: Operand::Nothing,
            y: Operand::Nothing,
            q: next,
        };
    }
    if is_function(mode) {
        let y = eval_function(table, text, mode, n, first);
        return Regs { acc, x, y, q: next };
    }
    let y = first_value(table, text, n, first);
    Regs { acc, x, y, q: z }
}

// Whether nothing stands in the registers, at a place behind p.
pub fn is_clear(s: Regs, p: usize) -> bool
    ensures { result ≡ true → (p < s.q) × ((some_of s.x ≡ false) × (some_of s.y ≡ false)) }
{
    let x = s.x;
    let y = s.y;
    let q = s.q;
    if q <= p {
        return false;
    }
    if operands::is_some(x) {
        return false;
    }
    !operands::is_some(y)
}
