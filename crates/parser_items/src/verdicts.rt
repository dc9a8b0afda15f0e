// Verdicts of the walk on expressions and calls, by their sorts, and the numbers that readers hand on: sorts, flags of operands and of brackets.
// Sorts and flags are numbers, since one `Step` tells both and counts too: with an enum for each it would have a type for each.
// Verdicts are numbers, 0 for none, since a cursor's marks hold the number (docs/DECISIONS.md, 107: a cursor is four words).
ghost use Rattle.std.specs.Prelude.{◌≡◌, ◌≤◌, Some};
ghost use Rattle.compile_writes.specs.Sorts.{value_verdict, nodes_verdict, compared_verdict, two_verdict, call_verdict, named_sort};
ghost use Rattle.parser_scan.specs.Text.{number_of_function};
ghost use Rattle.parser_items.specs.Reads.{Known, sort_of, sort_number, name_of, one_more_lem, sorts_from, is_comparable, flag_of_path, brackets_number};

use parser_scan::Function;

pub fn value_verdict(sort: usize) -> u8
    requires { Known sort }
    ensures { result ≡ value_verdict (sort_of sort) }
{
    if sort == 2 {
        return 5;
    }
    if sort == 4 {
        return 5;
    }
    0
}

pub fn nodes_verdict(sort: usize) -> u8
    requires { Known sort }
    ensures { result ≡ nodes_verdict (sort_of sort) }
{
    if sort == 1 {
        return 0;
    }
    if sort == 2 {
        return 0;
    }
    if sort == 5 {
        return 0;
    }
    5
}

// The verdict on a value function alone, where that is asked.
pub fn compared(sort: usize, asked: bool) -> u8
    requires { Known sort }
    ensures { result ≡ compared_verdict asked (sort_of sort) }
{
    if asked {
        if sort == 3 {
            return 5;
        }
    }
    0
}

// The verdict on a call: the name first, then the number of arguments, then their types.
pub fn call_verdict(name: Option<Function>, sorts: usize) -> u8
    requires { sorts ≤ 31 }
    ensures { result ≡ call_verdict (name_of (number_of_function name)) (sorts_from sorts) }
{
    let Some(called) = name else {
        return 6;
    };
    match called {
        Function::Match | Function::Search => two_verdict(sorts),
        Function::Count | Function::Length | Function::Value => one_verdict(called, sorts),
    }
}

// The verdict on a call of match or search.
fn two_verdict(sorts: usize) -> u8
    requires { sorts ≤ 31 }
    ensures { result ≡ two_verdict (sorts_from sorts) }
{
    if sorts < 6 {
        return 5;
    }
    if 30 < sorts {
        return 5;
    }
    let left = value_verdict((sorts - 6) / 5);
    if left == 0 {
        return value_verdict((sorts - 6) % 5);
    }
    left
}

// The verdict on a call of count, length or value.
pub fn one_verdict(called: Function, sorts: usize) -> u8
    requires { (number_of_function (Some called) ≤ 3) × (sorts ≤ 31) }
    ensures { result ≡ call_verdict (name_of (number_of_function (Some called))) (sorts_from sorts) }
{
    if sorts == 0 {
        return 5;
    }
    if 5 < sorts {
        return 5;
    }
    match called {
        Function::Length => value_verdict(sorts - 1),
        _ => nodes_verdict(sorts - 1),
    }
}

// The sort of a call.
pub fn call_sort(name: Option<Function>) -> usize
    ensures { result ≡ sort_number (named_sort (name_of (number_of_function name))) }
{
    let Some(called) = name else {
        return 4;
    };
    match called {
        Function::Match | Function::Search => 4,
        Function::Count | Function::Length | Function::Value => 3,
    }
}

// The number of the arguments' sorts with one more.
pub fn one_more(sorts: usize, sort: usize) -> usize
    requires { (sorts ≤ 31) × (sort ≤ 4) }
    ensures { (result ≡ one_more_lem sorts sort) × (result ≤ 31) }
{
    if sorts == 0 {
        return 1 + sort;
    }
    if sorts <= 5 {
        return 6 + 5 * (sorts - 1) + sort;
    }
    31
}

// The sort that an operand's flag tells.
pub fn plain_sort(flag: usize) -> usize
    requires { Known flag }
    ensures { (result ≡ sort_number (sort_of flag)) × (result ≤ 4) }
{
    if flag == 5 { 1 } else { flag }
}

// Whether an operand with the given flag may be compared.
pub fn comparable(flag: usize) -> bool
    ensures { result ≡ is_comparable flag }
{
    flag != 1 && flag != 2
}

// The flag of an operand that is a query, from what is told of its segments: 2 tight, 1 singular, 0 neither.
pub fn query_flag(f: usize) -> usize
    requires { f ≤ 2 }
    ensures { result ≡ flag_of_path f }
{
    match f {
        2 => 5,
        1 => 1,
        _ => 2,
    }
}

// What is told of a bracketed selection, from its first selector, the number of further ones and the absence of blanks.
pub fn brackets_flag(plain: usize, count: usize, before: bool, after: bool) -> usize
    ensures { result ≡ brackets_number plain count before after }
{
    if plain != 1 || count != 0 {
        return 0;
    }
    if before && after { 2 } else { 1 }
}
