// The numbers that document 01 gives each answer. Fields that a refusal's row does not name are 0.
// A refusal is a number here, 0 for none, and not an Option: these are the fields that exports hands to C (include/stewpebble.h).

#![tactic(auto)]

ghost use Rattle.refusals.specs.Numbers.{CompileTells, RunTells, SelectTells, CheckTells, PathTells, number_of_table, node_of_table, number_of_run, node_of_run, number_of_select, node_of_select, number_of_path, size_of_path, node_of_path};
ghost use Rattle.std.specs.Prelude.{◌≡◌};

use compile::numbers::number_of;
use compile::{CompileRefusal, Lengths};
use run::RunRefusal;
use select::SelectRefusal;
use table::TableRefusal;
use table_path::PathRefusal;

// What compile came to: the refusal, or 0; and two lengths.
#[derive(Clone, Copy)]
pub struct CompileNumbers {
    pub refusal: u8,
    pub plan: usize,
    pub pool: usize,
}

// What a run or a selection came to: the refusal, or 0; how many nodes were selected; the least node at which the table is wrong.
#[derive(Clone, Copy)]
pub struct RunNumbers {
    pub refusal: u8,
    pub count: usize,
    pub node: usize,
}

// What a check of a table came to: the refusal, or 0; the least node at which the table is wrong.
#[derive(Clone, Copy)]
pub struct CheckNumbers {
    pub refusal: u8,
    pub node: usize,
}

// What the path of a node came to: the refusal, or 0; the path's length; the least node at which the table is wrong.
#[derive(Clone, Copy)]
pub struct PathNumbers {
    pub refusal: u8,
    pub size: usize,
    pub node: usize,
}

// The number of what the check of a table finds.
fn table_number(refusal: TableRefusal) -> u8
    ensures { result ≡ number_of_table refusal }
{
    match refusal {
        TableRefusal::WrongSize => 9,
        TableRefusal::WrongNode(_) => 10,
        TableRefusal::WrongText(_) => 17,
    }
}

// The node that it names.
fn table_node(refusal: TableRefusal) -> usize
    ensures { result ≡ node_of_table refusal }
{
    match refusal {
        TableRefusal::WrongSize => 0,
        TableRefusal::WrongNode(i) => i,
        TableRefusal::WrongText(i) => i,
    }
}

// The number of a run's refusal.
fn run_number(refusal: RunRefusal) -> u8
    ensures { result ≡ number_of_run refusal }
{
    match refusal {
        RunRefusal::WrongPlan => 11,
        RunRefusal::Table(wrong) => table_number(wrong),
        RunRefusal::WrongStart => 14,
        RunRefusal::NoRoom => 13,
    }
}

// The node that it names.
fn run_node(refusal: RunRefusal) -> usize
    ensures { result ≡ node_of_run refusal }
{
    match refusal {
        RunRefusal::Table(wrong) => table_node(wrong),
        RunRefusal::WrongPlan => 0,
        RunRefusal::WrongStart => 0,
        RunRefusal::NoRoom => 0,
    }
}

// The number of a selection's refusal.
pub fn select_number(refusal: SelectRefusal) -> u8
    ensures { result ≡ number_of_select refusal }
{
    match refusal {
        SelectRefusal::Query(wrong) => number_of(wrong),
        SelectRefusal::Run(wrong) => run_number(wrong),
    }
}

// The node that it names.
fn select_node(refusal: SelectRefusal) -> usize
    ensures { result ≡ node_of_select refusal }
{
    match refusal {
        SelectRefusal::Query(_) => 0,
        SelectRefusal::Run(wrong) => run_node(wrong),
    }
}

// The number of a path's refusal.
fn path_number(refusal: PathRefusal) -> u8
    ensures { result ≡ number_of_path refusal }
{
    match refusal {
        PathRefusal::Table(wrong) => table_number(wrong),
        PathRefusal::NoNode => 15,
        PathRefusal::SmallRoom(_) => 16,
    }
}

// The length that it names.
fn path_size(refusal: PathRefusal) -> usize
    ensures { result ≡ size_of_path refusal }
{
    match refusal {
        PathRefusal::Table(_) => 0,
        PathRefusal::NoNode => 0,
        PathRefusal::SmallRoom(size) => size,
    }
}

// The node that it names.
fn path_node(refusal: PathRefusal) -> usize
    ensures { result ≡ node_of_path refusal }
{
    match refusal {
        PathRefusal::Table(wrong) => table_node(wrong),
        PathRefusal::NoNode => 0,
        PathRefusal::SmallRoom(_) => 0,
    }
}

pub fn of_compile(compiled: Result<Lengths, CompileRefusal>) -> CompileNumbers
    ensures { CompileTells compiled result }
{
    match compiled {
        Ok(Lengths { plan, pool }) => CompileNumbers {
            refusal: 0,
            plan,
            pool,
        },
        Err(CompileRefusal::Query(refusal)) => CompileNumbers {
            refusal: number_of(refusal),
            plan: 0,
            pool: 0,
        },
        Err(CompileRefusal::SmallRoom(Lengths { plan, pool })) => CompileNumbers {
            refusal: 12,
            plan,
            pool,
        },
    }
}

pub fn of_run(ran: Result<usize, RunRefusal>) -> RunNumbers
    ensures { RunTells ran result }
{
    match ran {
        Ok(count) => RunNumbers {
            refusal: 0,
            count,
            node: 0,
        },
        Err(refusal) => RunNumbers {
            refusal: run_number(refusal),
            count: 0,
            node: run_node(refusal),
        },
    }
}

pub fn of_select(selection: Result<usize, SelectRefusal>) -> RunNumbers
    ensures { SelectTells selection result }
{
    match selection {
        Ok(count) => RunNumbers {
            refusal: 0,
            count,
            node: 0,
        },
        Err(refusal) => RunNumbers {
            refusal: select_number(refusal),
            count: 0,
            node: select_node(refusal),
        },
    }
}

pub fn of_check(checked: Result<(), TableRefusal>) -> CheckNumbers
    ensures { CheckTells checked result }
{
    match checked {
        Ok(()) => CheckNumbers {
            refusal: 0,
            node: 0,
        },
        Err(refusal) => CheckNumbers {
            refusal: table_number(refusal),
            node: table_node(refusal),
        },
    }
}

pub fn of_path(written: Result<usize, PathRefusal>) -> PathNumbers
    ensures { PathTells written result }
{
    match written {
        Ok(size) => PathNumbers {
            refusal: 0,
            size,
            node: 0,
        },
        Err(refusal) => PathNumbers {
            refusal: path_number(refusal),
            size: path_size(refusal),
            node: path_node(refusal),
        },
    }
}
