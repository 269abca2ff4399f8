//! Tests: the program as which a text reads, written out.

use crate::process_tests::{AUCTION, expect, program_of};
use nomos_ir::declaration::ProcDecl;
use nomos_ir::lists::ProgramLists;
use nomos_ir::program::Program;
use std::alloc::{AllocError, Global};
use std::fmt::Write;
use std::test::Fail;

// Writes the nodes of types, each behind its number and before its offset.
fn write_types(lists: &ProgramLists, written: &mut String) -> Result<(), AllocError> {
    for (number, part) in lists.types.as_slice().iter().enumerate() {
        writeln!(written, "{number} {:?} at {}", part.node, part.at)?;
    }
    Ok(())
}

// Writes the nodes of terms, each behind its number.
fn write_terms(lists: &ProgramLists, written: &mut String) -> Result<(), AllocError> {
    for (number, node) in lists.terms.as_slice().iter().enumerate() {
        writeln!(written, "{number} {node:?}")?;
    }
    Ok(())
}

// Writes the nodes of code, each behind its number.
fn write_code(lists: &ProgramLists, written: &mut String) -> Result<(), AllocError> {
    for (number, node) in lists.code.as_slice().iter().enumerate() {
        writeln!(written, "{number} {node:?}")?;
    }
    Ok(())
}

// Writes the definitions of types.
fn write_definitions(lists: &ProgramLists, written: &mut String) -> Result<(), AllocError> {
    for def in lists.defs.as_slice() {
        let name = str::from_utf8(def.name.as_bytes()).unwrap_or("");
        writeln!(written, "{name} {:?} {:?}", def.mode, def.body)?;
    }
    Ok(())
}

// Writes what a process is: its name, its mode, its own channel and its values.
fn write_head(d: &ProcDecl, written: &mut String) -> Result<(), AllocError> {
    let name = str::from_utf8(d.name.as_bytes()).unwrap_or("");
    write!(written, "{name} {:?} {:?} {:?} ", d.mode, d.me, d.values)
}

// Writes what it uses, what it starts with, what it offers, and its code.
fn write_tail(d: &ProcDecl, written: &mut String) -> Result<(), AllocError> {
    writeln!(
        written,
        "{:?} {:?} {:?} {:?}",
        d.channels, d.amount, d.offers, d.first
    )
}

// Writes the declarations of processes.
fn write_processes(lists: &ProgramLists, written: &mut String) -> Result<(), AllocError> {
    for d in lists.procs.as_slice() {
        write_head(d, written)?;
        write_tail(d, written)?;
    }
    Ok(())
}

// Writes the labels, in order of number.
fn write_labels(lists: &ProgramLists, written: &mut String) -> Result<(), AllocError> {
    for label in lists.labels.as_slice() {
        let name = str::from_utf8(label.as_bytes()).unwrap_or("");
        writeln!(written, "{name}")?;
    }
    Ok(())
}

// Writes the lists of a program.
fn write_lists(lists: &ProgramLists, written: &mut String) -> Result<(), AllocError> {
    write_types(lists, written)?;
    write_terms(lists, written)?;
    write_code(lists, written)?;
    write_definitions(lists, written)?;
    write_processes(lists, written)?;
    write_labels(lists, written)
}

// The lists of a program.
fn shown(alloc: Global, program: &Program) -> Result<String, AllocError> {
    let mut written = String::new(alloc);
    write_lists(program.lists(), &mut written)?;
    Ok(written)
}

// The lists of the program of a text, or nothing where it has none.
fn read(alloc: Global, text: &str) -> Result<String, AllocError> {
    match program_of(alloc, text) {
        Some(program) => {
            let shown = shown(alloc, &program);
            drop(program);
            shown
        }
        None => Ok(String::new(alloc)),
    }
}

// The program of the auction: types, terms, code, definitions, processes, labels. Parts stand before wholes, and of a
// code the last instruction before the others.
const AUCTION_LISTS: &str = "\
0 Named(DefId(0)) at 33
1 ValueOut(Kind { lists: 0, base: Int }, TypeId(0)) at 30
2 One at 47
3 With(Items { items: [Branch { label: Label(0), goes: TypeId(1) }, Branch { label: Label(1), goes: TypeId(2) \
}] }) at 15
4 Named(DefId(0)) at 82
5 Named(DefId(1)) at 95
6 Down(TypeId(5)) at 90
7 Lolli(TypeId(4), TypeId(6)) at 87
8 Named(DefId(1)) at 124
9 Down(TypeId(8)) at 119
10 ValueOut(Kind { lists: 0, base: Int }, TypeId(9)) at 116
11 With(Items { items: [Branch { label: Label(2), goes: TypeId(7) }, Branch { label: Label(3), goes: TypeId(10) \
}] }) at 71
12 Up(TypeId(11)) at 68
13 Named(DefId(0)) at 169
14 Named(DefId(1)) at 177
15 Named(DefId(2)) at 192
16 Down(TypeId(15)) at 187
17 Lolli(TypeId(14), TypeId(16)) at 184
18 Lolli(TypeId(13), TypeId(17)) at 174
19 Named(DefId(2)) at 221
20 Down(TypeId(19)) at 216
21 ValueOut(Kind { lists: 0, base: Int }, TypeId(20)) at 213
22 With(Items { items: [Branch { label: Label(4), goes: TypeId(18) }, Branch { label: Label(5), goes: \
TypeId(21) }] }) at 160
23 PotIn(Written(2), TypeId(22)) at 154
24 Up(TypeId(23)) at 151
25 Named(DefId(0)) at 256
26 Named(DefId(1)) at 365
27 Named(DefId(0)) at 608
28 Named(DefId(1)) at 619
29 Named(DefId(2)) at 629
30 Named(DefId(1)) at 1139
31 Named(DefId(2)) at 1149
32 Named(DefId(2)) at 1239
33 Named(DefId(1)) at 1251
34 One at 1215
35 Named(DefId(2)) at 1406
36 One at 1390
0 Var(299, VarId(0))
1 Var(312, VarId(0))
2 Var(501, VarId(1))
3 Var(507, VarId(0))
4 Add(505, TermId(2), TermId(3))
5 Var(539, VarId(1))
6 Var(568, VarId(1))
7 Var(772, VarId(3))
8 Var(779, VarId(0))
9 Less(777, TermId(7), TermId(8))
10 Var(875, VarId(0))
11 Var(985, VarId(3))
12 Var(1052, VarId(3))
13 Var(1082, VarId(3))
14 Number(1176, 0)
15 Var(1193, VarId(11))
16 Var(1294, VarId(0))
17 Var(1379, VarId(0))
18 Var(1492, VarId(0))
0 Call(302, ProcId(0), Args { values: Items { items: [Term(TermId(1))] }, channels: Items { items: [] } })
1 Put(290, Own, TermId(0), CodeId(0))
2 Close(328)
3 Case(265, Own, Items { items: [Arm { label: Label(0), goes: CodeId(1) }, Arm { label: Label(1), goes: \
CodeId(2) }] })
4 Call(491, ProcId(1), Args { values: Items { items: [Term(TermId(4))] }, channels: Items { items: [] } })
5 Detach(483, CodeId(4))
6 Wait(469, VarId(2), CodeId(5))
7 Label(461, Var(VarId(2)), Label(1), CodeId(6))
8 Take(445, Var(VarId(2)), VarId(0), CodeId(7))
9 Label(436, Var(VarId(2)), Label(0), CodeId(8))
10 Recv(417, Own, VarId(2), CodeId(9))
11 Call(558, ProcId(1), Args { values: Items { items: [Term(TermId(6))] }, channels: Items { items: [] } })
12 Detach(550, CodeId(11))
13 Put(530, Own, TermId(5), CodeId(12))
14 Case(386, Own, Items { items: [Arm { label: Label(2), goes: CodeId(10) }, Arm { label: Label(3), goes: \
CodeId(13) }] })
15 Accept(376, CodeId(14))
16 Call(865, ProcId(2), Args { values: Items { items: [Term(TermId(10))] }, channels: Items { items: [VarId(2), \
VarId(6)] } })
17 Detach(857, CodeId(16))
18 Release(830, VarId(7), VarId(8), CodeId(17))
19 Send(818, Var(VarId(7)), VarId(4), CodeId(18))
20 Label(809, Var(VarId(7)), Label(2), CodeId(19))
21 Acquire(791, VarId(5), VarId(7), CodeId(20))
22 Call(975, ProcId(2), Args { values: Items { items: [Term(TermId(11))] }, channels: Items { items: [VarId(4), \
VarId(5)] } })
23 Detach(967, CodeId(22))
24 Release(942, VarId(9), VarId(10), CodeId(23))
25 Send(932, Var(VarId(9)), VarId(2), CodeId(24))
26 Label(923, Var(VarId(9)), Label(2), CodeId(25))
27 Acquire(907, VarId(6), VarId(9), CodeId(26))
28 If(769, TermId(9), CodeId(21), CodeId(27))
29 Work(753, Written(2), CodeId(28))
30 Take(737, Var(VarId(2)), VarId(0), CodeId(29))
31 Label(728, Var(VarId(2)), Label(0), CodeId(30))
32 Recv(709, Own, VarId(6), CodeId(31))
33 Recv(696, Own, VarId(2), CodeId(32))
34 Call(1072, ProcId(2), Args { values: Items { items: [Term(TermId(13))] }, channels: Items { items: \
[VarId(4), VarId(5)] } })
35 Detach(1064, CodeId(34))
36 Put(1043, Own, TermId(12), CodeId(35))
37 Work(1027, Written(2), CodeId(36))
38 Case(667, Own, Items { items: [Arm { label: Label(4), goes: CodeId(33) }, Arm { label: Label(5), goes: \
CodeId(37) }] })
39 Get(651, Own, Written(2), CodeId(38))
40 Accept(641, CodeId(39))
41 Call(1183, ProcId(2), Args { values: Items { items: [Term(TermId(15))] }, channels: Items { items: \
[VarId(2), VarId(12)] } })
42 Spawn(1161, VarId(2), ProcId(0), Args { values: Items { items: [Term(TermId(14))] }, channels: Items { \
items: [] } }, CodeId(41))
43 Close(1382)
44 Emit(1374, TermId(17), CodeId(43))
45 Release(1355, VarId(7), VarId(15), CodeId(44))
46 Send(1345, Var(VarId(7)), VarId(6), CodeId(45))
47 Send(1335, Var(VarId(7)), VarId(2), CodeId(46))
48 Label(1328, Var(VarId(7)), Label(4), CodeId(47))
49 Pay(1317, Var(VarId(7)), Written(2), CodeId(48))
50 Acquire(1301, VarId(14), VarId(7), CodeId(49))
51 Spawn(1279, VarId(2), ProcId(0), Args { values: Items { items: [Term(TermId(16))] }, channels: Items { \
items: [] } }, CodeId(50))
52 Work(1267, Written(1), CodeId(51))
53 Close(1495)
54 Emit(1487, TermId(18), CodeId(53))
55 Release(1468, VarId(7), VarId(15), CodeId(54))
56 Take(1458, Var(VarId(7)), VarId(0), CodeId(55))
57 Label(1450, Var(VarId(7)), Label(5), CodeId(56))
58 Pay(1439, Var(VarId(7)), Written(2), CodeId(57))
59 Acquire(1423, VarId(14), VarId(7), CodeId(58))
coin R TypeId(3)
wallet S TypeId(12)
auction S TypeId(24)
mint R None Items { items: [Par { var: VarId(0), kind: Kind { lists: 0, base: Int }, amount: None }] } Items { \
items: [] } Written(0) TypeId(25) CodeId(3)
keep S None Items { items: [Par { var: VarId(1), kind: Kind { lists: 0, base: Int }, amount: None }] } Items { \
items: [] } Written(0) TypeId(26) CodeId(15)
open S None Items { items: [Par { var: VarId(3), kind: Kind { lists: 0, base: Int }, amount: None }] } Items { \
items: [(VarId(4), TypeId(27)), (VarId(5), TypeId(28))] } Written(0) TypeId(29) CodeId(40)
start S None Items { items: [Par { var: VarId(11), kind: Kind { lists: 0, base: Int }, amount: None }] } Items \
{ items: [(VarId(12), TypeId(30))] } Written(0) TypeId(31) CodeId(42)
place T Some(VarId(13)) Items { items: [Par { var: VarId(0), kind: Kind { lists: 0, base: Int }, amount: None \
}] } Items { items: [(VarId(14), TypeId(32)), (VarId(6), TypeId(33))] } Written(3) TypeId(34) CodeId(52)
ask T Some(VarId(13)) Items { items: [] } Items { items: [(VarId(14), TypeId(35))] } Written(2) TypeId(36) \
CodeId(59)
value
melt
store
total
bid
high
";

#[test]
fn reads_the_auction_as_its_program(rt: HostRuntime) -> Result<(), Fail> {
    let found = read(rt.alloc(), AUCTION)?;
    expect(&rt, found, AUCTION_LISTS);
    Ok(())
}
