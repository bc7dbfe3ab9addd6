// The refusals of the input on tables made by hand, each sentence of documents 01 and 02 with one that just passes and one that just fails. `stdout` has
// what they say of each: its number and place, or "passed". A node is written as its kind, two digits of its parent and its role: 33_01_6; 1 before them is flag 4096.
#![tactic(auto)]

ghost use Rattle.std.specs.Prelude.{◌<◌};

use refusal_verdict::Refused;
use std::io;

fn say(rt: &impl Print, label: &str, v: Result<(), Refused>) -> io::Result<()> {
    match v {
        Err(refused) => {
            let number = refused.number();
            let place = refused.place();
            println!(rt; "{label}: {number},{place}")
        }
        Ok(()) => println!(rt; "{label}: passed"),
    }
}

// The refusal of the first n numbers as nodes, the first s as scopes, a bytes of source and b of names.
fn cut(
    rt: &impl Print,
    label: &str,
    source_type: u32,
    nodes: &[u32],
    n: usize,
    scopes: &[u32],
    s: usize,
    bytes: &[u8],
    a: usize,
    b: usize,
) -> io::Result<()> {
    if nodes.len() < n {
        return Ok(());
    }
    if scopes.len() < s {
        return Ok(());
    }
    if bytes.len() < a {
        return Ok(());
    }
    if bytes.len() < b {
        return Ok(());
    }
    say(
        rt,
        label,
        refusal_input::refusal(
            source_type,
            &nodes[..n],
            &scopes[..s],
            &bytes[..a],
            &bytes[..b],
        ),
    )
}

fn default_flag(row: u32) -> u32 {
    if row < 100000 {
        return 0;
    }
    4096
}

// The nodes after the Program.
fn fill(rows: &[u32], nodes: &mut [u32; 170]) {
    for i in 0..16 {
        if i < rows.len() {
            let n = rows[i];
            nodes[i * 10 + 10] = n / 1000 % 100;
            nodes[i * 10 + 11] = n / 10 % 100;
            nodes[i * 10 + 12] = n % 10;
            nodes[i * 10 + 16] = default_flag(n);
        }
    }
}

fn tabled(
    rt: &impl Print,
    label: &str,
    source_type: u32,
    nodes: &[u32; 170],
    len: usize,
    scopes: &[u32; 6],
) -> io::Result<()> {
    cut(rt, label, source_type, nodes, len, scopes, 6, b"abcd", 4, 2)
}

// A Program and some nodes, with one number changed in the node table and one in the scope table: scope 0 is of node 0, scope 1 of node 1.
fn judge(
    rt: &impl Print,
    label: &str,
    rows: &[u32],
    at: usize,
    value: u32,
    scope_at: usize,
    scope_value: u32,
) -> io::Result<()> {
    let mut nodes = [0u32; 170];
    fill(rows, &mut nodes);
    if at < 170 {
        nodes[at] = value;
    }
    let mut scopes = [0u32, 2, 0, 0, 0, 1];
    if scope_at < 6 {
        scopes[scope_at] = scope_value;
    }
    if rows.len() < 17 {
        let len = rows.len() * 10 + 10;
        tabled(rt, label, 0, &nodes, len, &scopes)?;
    }
    Ok(())
}

// The field of a node, by document 01's order.
fn change(
    rt: &impl Print,
    label: &str,
    rows: &[u32],
    node: usize,
    field: usize,
    value: u32,
) -> io::Result<()> {
    if node < 17 {
        if field < 10 {
            judge(rt, label, rows, node * 10 + field, value, 6, 0)?;
        }
    }
    Ok(())
}

fn shape(rt: &impl Print, label: &str, rows: &[u32]) -> io::Result<()> {
    judge(rt, label, rows, 170, 0, 6, 0)
}

// 2. A node's kind, role, flag sum or extra not listed.
fn listed(rt: &impl Print) -> io::Result<()> {
    shape(rt, "kind 55", &[55_00_0])?;
    shape(rt, "kind 56", &[56_00_0])?;
    shape(rt, "role 7", &[55_00_7])?;
    shape(rt, "role 8", &[55_00_8])?;
    change(rt, "all flags", &[55_00_0], 1, 6, 8190)?;
    change(rt, "flag 8192", &[55_00_0], 1, 6, 8192)?;
    change(rt, "flag 1", &[55_00_0], 1, 6, 1)
}

// A class with a method, and the flags of one of its nodes.
fn flagged(
    rt: &impl Print,
    label: &str,
    source_type: u32,
    node: usize,
    flags: u32,
) -> io::Result<()> {
    let mut nodes = [0u32; 170];
    fill(&[26_00_3, 27_01_0, 28_02_0, 32_03_2, 1_03_1], &mut nodes);
    if node < 17 {
        nodes[node * 10 + 6] = flags;
    }
    let scopes = [0u32, 2, 0, 0, 0, 1];
    tabled(rt, label, source_type, &nodes, 60, &scopes)
}

// 2. .. flag 16384, on class elements of TypeScript alone.
fn listed_in_typescript(rt: &impl Print) -> io::Result<()> {
    flagged(rt, "flag 16384 in TypeScript", 2, 3, 16384)?;
    flagged(rt, "all flags with it", 2, 3, 24574)?;
    flagged(rt, "flags 24576", 2, 3, 24576)?;
    flagged(rt, "flag 16384 on a Class", 2, 1, 16384)?;
    flagged(rt, "flag 16384 in a module", 1, 3, 16384)
}

// 2. .. or extra: kinds 24, 26, 28, 35, 36, 44, 55 and another.
fn listed_extra(rt: &impl Print) -> io::Result<()> {
    change(rt, "await using", &[24_00_0], 1, 7, 4)?;
    change(rt, "declaration 5", &[24_00_0], 1, 7, 5)?;
    change(
        rt,
        "setter",
        &[26_00_3, 27_01_0, 28_02_0, 32_03_2, 1_03_1],
        3,
        7,
        3,
    )?;
    change(
        rt,
        "method 4",
        &[26_00_3, 27_01_0, 28_02_0, 32_03_2, 1_03_1],
        3,
        7,
        4,
    )?;
    change(rt, "hexadecimal", &[35_00_0], 1, 7, 4)?;
    change(rt, "number 5", &[35_00_0], 1, 7, 5)?;
    change(rt, "a string of any length", &[36_00_0], 1, 7, 4294967295)?;
    change(rt, "set", &[44_00_0], 1, 7, 2)?;
    change(rt, "property 3", &[44_00_0], 1, 7, 3)?;
    change(rt, "parenthesis", &[55_00_0], 1, 7, 1)?;
    change(rt, "extra 2", &[55_00_0], 1, 7, 2)?;
    change(rt, "another kind's extra", &[43_00_0], 1, 7, 1)
}

// 3. Node 0 is no Program or has a parent other than 0; Program elsewhere; a parent that is neither the node before nor an ancestor of that.
fn tree(rt: &impl Print) -> io::Result<()> {
    shape(rt, "a program", &[])?;
    change(rt, "no Program", &[], 0, 0, 1)?;
    change(rt, "its parent 1", &[55_00_0], 0, 1, 1)?;
    shape(rt, "a second Program", &[0_00_0])?;
    shape(rt, "under the node before", &[55_00_0, 55_01_0])?;
    shape(rt, "under its ancestor", &[55_00_0, 55_01_0, 55_00_0])?;
    shape(rt, "under its sister", &[55_00_0, 55_00_0, 55_01_0])?;
    shape(rt, "under itself", &[55_01_0])?;
    shape(rt, "under a later node", &[55_02_0, 55_00_0])
}

// 4. Span start after its end, or a span or name outside its bytes: 4 bytes of source, 2 of names.
fn spans(rt: &impl Print) -> io::Result<()> {
    change(rt, "to the last byte", &[55_00_0], 1, 4, 4)?;
    change(rt, "past it", &[55_00_0], 1, 4, 5)?;
    change(rt, "start after end", &[55_00_0], 1, 3, 1)?;
    change(rt, "both bytes of the names", &[55_00_0], 1, 9, 2)?;
    change(rt, "a third", &[55_00_0], 1, 9, 3)?;
    change(rt, "no name, after the last", &[55_00_0], 1, 8, 2)?;
    change(rt, "no name, further on", &[55_00_0], 1, 8, 3)
}

// 5. A scope that is missing (kind 26's extra included); a scope's node that is neither the using node nor its ancestor: scope 1 is of node 1.
fn scopes_of_nodes(rt: &impl Print) -> io::Result<()> {
    change(rt, "its own scope", &[55_00_0], 1, 5, 1)?;
    change(rt, "a missing scope", &[55_00_0], 1, 5, 2)?;
    change(rt, "scope of its parent", &[55_00_0, 55_01_0], 2, 5, 1)?;
    change(rt, "scope of its sister", &[55_00_0, 55_00_0], 2, 5, 1)?;
    change(rt, "scope of its child", &[55_00_0], 0, 5, 1)?;
    change(rt, "class scope", &[26_00_3, 27_01_0], 1, 7, 1)?;
    change(rt, "class scope missing", &[26_00_3, 27_01_0], 1, 7, 2)
}

// 1, 2, 3, 4, 5, 13, 14, 6: each over the whole tree, at its lowest place.
fn order(rt: &impl Print) -> io::Result<()> {
    shape(rt, "2 at 2 before 3 at 1", &[0_00_0, 56_00_0])?;
    shape(rt, "2 at 1 before 2 at 2", &[56_00_0, 56_00_0])?;
    change(rt, "3 before 4", &[55_00_0, 0_00_0], 1, 4, 5)?;
    change(rt, "4 before 14", &[10_00_3, 55_00_0], 2, 4, 5)?;
    change(rt, "5 before 13", &[5_00_0, 55_00_0], 2, 5, 2)?;
    change(rt, "5 before 14", &[10_00_3, 55_00_0], 2, 5, 2)
}

fn order_of_shape(rt: &impl Print) -> io::Result<()> {
    shape(
        rt,
        "13 at 3 before 13 at 4 and 14 at 2",
        &[55_00_0, 10_00_3, 5_00_0, 5_00_0],
    )?;
    shape(rt, "13 at 1 before 14 at 2", &[5_00_0, 10_00_3])?;
    shape(
        rt,
        "13 at a child before 14 at its parent",
        &[10_00_3, 22_01_3, 55_01_3],
    )?;
    shape(rt, "14 at 2 before 14 at 3", &[55_00_0, 10_00_3, 10_00_3])?;
    judge(rt, "13 before 6", &[22_00_3, 37_01_0, 5_00_0], 170, 0, 1, 4)?;
    judge(
        rt,
        "14 before 6",
        &[22_00_3, 37_01_0, 10_00_3],
        170,
        0,
        1,
        4,
    )?;
    judge(
        rt,
        "6 before 15",
        &[26_00_3, 27_01_0, 3_02_0, 20_03_3, 22_00_3, 37_05_0],
        170,
        0,
        1,
        4,
    )
}

// 6. A walk that the Rust ends in a failure, at its Super: above the Program, whose scope is here a function's; at a class's scope without an element.
fn walks(rt: &impl Print) -> io::Result<()> {
    shape(rt, "Super outside any function", &[22_00_3, 37_01_0])?;
    judge(rt, "above the Program", &[22_00_3, 37_01_0], 170, 0, 1, 4)?;
    judge(
        rt,
        "the lower of two",
        &[22_00_3, 37_01_0, 37_01_0],
        170,
        0,
        1,
        4,
    )?;
    shape(
        rt,
        "class scope without an element",
        &[26_00_3, 27_01_0, 3_02_0, 22_03_3, 37_04_0],
    )
}

// 15. A return whose nearest unit is a static block, at the return; whether the class is entered isn't asked.
fn returns(rt: &impl Print) -> io::Result<()> {
    shape(rt, "return in the Program", &[20_00_3])?;
    shape(
        rt,
        "in a static block",
        &[26_00_3, 27_01_0, 3_02_0, 20_03_3],
    )?;
    shape(
        rt,
        "in a Block of it",
        &[26_00_3, 27_01_0, 3_02_0, 5_03_3, 20_04_3],
    )?;
    shape(
        rt,
        "in a function of it",
        &[26_00_3, 27_01_0, 3_02_0, 1_03_3, 4_04_0, 20_05_3],
    )?;
    shape(
        rt,
        "in an arrow of it",
        &[26_00_3, 27_01_0, 3_02_0, 22_03_3, 2_04_0, 4_05_0, 20_06_3],
    )?;
    shape(
        rt,
        "in a method beside it",
        &[
            26_00_3, 27_01_0, 3_02_0, 28_02_0, 32_04_2, 1_04_1, 4_06_0, 20_07_3,
        ],
    )?;
    shape(
        rt,
        "in a class that isn't entered",
        &[22_00_3, 26_01_0, 27_02_0, 3_03_0, 20_04_3],
    )?;
    shape(
        rt,
        "the lower return",
        &[26_00_3, 27_01_0, 3_02_0, 21_03_3, 20_03_3, 20_03_3],
    )
}

// 13. Kinds 5-14, 16 and 18-22 have role 3, 4 or 5 under a holder: 0, 3-13, 15-17.
fn statements(rt: &impl Print) -> io::Result<()> {
    shape(rt, "Block, role 3", &[5_00_3])?;
    shape(rt, "Block, role 2", &[5_00_2])?;
    shape(rt, "other statement, role 3", &[22_00_3])?;
    shape(rt, "other statement, role 6", &[22_00_6])?;
    shape(rt, "under FunctionBody", &[1_00_3, 4_01_0, 20_02_3])?;
    shape(rt, "under Function", &[1_00_3, 20_01_3])?;
    shape(
        rt,
        "under StaticBlock",
        &[26_00_3, 27_01_0, 3_02_0, 21_03_3],
    )?;
    shape(rt, "under ClassBody", &[26_00_3, 27_01_0, 21_02_3])?;
    shape(rt, "under SwitchCase", &[14_00_3, 15_01_3, 18_02_3])?;
    shape(rt, "under an expression", &[55_00_0, 19_01_3])
}

// 13. Kinds 1, 24, 26, 53 and 54 may, and are statements then. No other kind has these roles there, but 17 under Try.
fn other_kinds(rt: &impl Print) -> io::Result<()> {
    shape(rt, "Function held", &[1_00_3])?;
    shape(rt, "Function not held", &[1_00_0])?;
    shape(rt, "VariableDeclaration held", &[24_00_3])?;
    shape(rt, "Class held", &[26_00_3, 27_01_0])?;
    shape(rt, "exports held", &[53_00_3, 54_00_3])?;
    shape(rt, "Directive", &[23_00_0])?;
    shape(rt, "Directive held", &[23_00_3])?;
    shape(rt, "Arrow held", &[2_00_3])?;
    shape(rt, "expression held", &[55_00_3])?;
    shape(rt, "expression held by one", &[55_00_0, 55_01_3])
}

// 14, and 13 at the last. Kinds 6-11 and 13 hold exactly one statement with role 3, If one and at most one with role 4; else only Try holds roles 4 and 5.
fn bodies(rt: &impl Print) -> io::Result<()> {
    shape(rt, "While with a body", &[10_00_3, 22_01_3])?;
    shape(rt, "While without", &[10_00_3])?;
    shape(rt, "While with two", &[10_00_3, 22_01_3, 22_01_3])?;
    shape(rt, "For without", &[7_00_3])?;
    shape(rt, "With without", &[13_00_3, 55_01_0])?;
    shape(rt, "DoWhile held below", &[10_00_3, 11_01_3, 22_02_3])?;
    shape(rt, "If with one", &[12_00_3, 22_01_3])?;
    shape(rt, "If with an alternate", &[12_00_3, 22_01_3, 22_01_4])?;
    shape(rt, "If with an alternate alone", &[12_00_3, 22_01_4])?;
    shape(
        rt,
        "If with two alternates",
        &[12_00_3, 22_01_3, 22_01_4, 22_01_4],
    )?;
    shape(rt, "While with an alternate", &[10_00_3, 22_01_3, 22_01_4])?;
    shape(rt, "If with a finally", &[12_00_3, 22_01_3, 22_01_5])?;
    shape(rt, "expression with role 4", &[55_00_0, 55_01_4])
}

// 13, 14. Switch holds only SwitchCase with role 3, at most one with flag 4096. A SwitchCase stands only there.
fn switches(rt: &impl Print) -> io::Result<()> {
    shape(rt, "Switch with no case", &[14_00_3])?;
    shape(rt, "one default", &[14_00_3, 15_01_3, 1_15_01_3])?;
    shape(rt, "two defaults", &[14_00_3, 1_15_01_3, 1_15_01_3])?;
    shape(
        rt,
        "a default of each",
        &[14_00_3, 1_15_01_3, 14_02_3, 1_15_03_3],
    )?;
    shape(rt, "Switch with a Block", &[14_00_3, 5_01_3])?;
    shape(rt, "Switch with a function", &[14_00_3, 1_01_3])?;
    shape(rt, "case under Program", &[15_00_3])?;
    shape(rt, "case with role 0", &[14_00_3, 15_01_0])
}

// 13, 14. Try holds one Block with role 3, at most one CatchClause with role 4, one Block with role 5, and at least one of the last two.
fn tries(rt: &impl Print) -> io::Result<()> {
    shape(rt, "with a catch", &[16_00_3, 5_01_3, 17_01_4, 5_03_3])?;
    shape(rt, "with a finally", &[16_00_3, 5_01_3, 5_01_5])?;
    shape(rt, "with both", &[16_00_3, 5_01_3, 17_01_4, 5_03_3, 5_01_5])?;
    shape(rt, "with neither", &[16_00_3, 5_01_3])?;
    shape(rt, "without a Block", &[16_00_3, 5_01_5])?;
    shape(rt, "with two Blocks", &[16_00_3, 5_01_3, 5_01_3, 5_01_5])?;
    shape(
        rt,
        "with two catches",
        &[16_00_3, 5_01_3, 17_01_4, 5_03_3, 17_01_4, 5_05_3],
    )?;
    shape(rt, "with two finallies", &[16_00_3, 5_01_3, 5_01_5, 5_01_5])?;
    shape(rt, "with a statement tried", &[16_00_3, 22_01_3, 5_01_5])?;
    shape(rt, "with a Block as catch", &[16_00_3, 5_01_3, 5_01_4])?;
    shape(
        rt,
        "with a statement as finally",
        &[16_00_3, 5_01_3, 22_01_5],
    )
}

// 13, 14. CatchClause, only there, holds one Block.
fn clauses(rt: &impl Print) -> io::Result<()> {
    shape(rt, "under Program", &[17_00_4, 5_01_3])?;
    shape(
        rt,
        "with role 3",
        &[16_00_3, 5_01_3, 17_01_3, 5_03_3, 5_01_5],
    )?;
    shape(
        rt,
        "with role 0",
        &[16_00_3, 5_01_3, 17_01_0, 5_03_3, 5_01_5],
    )?;
    shape(rt, "without a Block", &[16_00_3, 5_01_3, 17_01_4])?;
    shape(
        rt,
        "with two Blocks",
        &[16_00_3, 5_01_3, 17_01_4, 5_03_3, 5_03_3],
    )?;
    shape(rt, "with a statement", &[16_00_3, 5_01_3, 17_01_4, 22_03_3])
}

// 14. Labeled has one label of kind 33, Break and Continue at most one.
fn labels(rt: &impl Print) -> io::Result<()> {
    shape(rt, "Labeled with one", &[6_00_3, 33_01_6, 22_01_3])?;
    shape(rt, "Labeled with none", &[6_00_3, 22_01_3])?;
    shape(rt, "Labeled with two", &[6_00_3, 33_01_6, 33_01_6, 22_01_3])?;
    shape(rt, "Labeled with another kind", &[6_00_3, 32_01_6, 22_01_3])?;
    shape(
        rt,
        "Labeled, held in another",
        &[6_00_3, 33_01_6, 6_01_3, 33_03_6, 22_03_3],
    )?;
    shape(rt, "Break with none", &[18_00_3])?;
    shape(rt, "Break with one", &[18_00_3, 33_01_6])?;
    shape(rt, "Break with two", &[18_00_3, 33_01_6, 33_01_6])?;
    shape(rt, "Continue with one", &[19_00_3, 33_01_6])?;
    shape(rt, "Continue with two", &[19_00_3, 33_01_6, 33_01_6])
}

// 13, 14. FunctionBody stands only under kind 1 or 2, at most one each.
fn functions(rt: &impl Print) -> io::Result<()> {
    shape(rt, "Function with a body", &[1_00_3, 4_01_0])?;
    shape(rt, "Arrow with a body", &[2_00_0, 4_01_0])?;
    shape(rt, "body under Program", &[4_00_0])?;
    shape(
        rt,
        "body under StaticBlock",
        &[26_00_3, 27_01_0, 3_02_0, 4_03_0],
    )?;
    shape(rt, "Function with two", &[1_00_3, 4_01_0, 4_01_0])?;
    shape(rt, "Arrow with two", &[2_00_0, 4_01_0, 4_01_0])
}

// 13, 14. Class has one ClassBody, found only there. Kinds 28-30 and 3 stand only under ClassBody.
fn classes(rt: &impl Print) -> io::Result<()> {
    shape(rt, "Class with a body", &[26_00_0, 27_01_0])?;
    shape(rt, "Class without", &[26_00_0])?;
    shape(rt, "Class with two", &[26_00_0, 27_01_0, 27_01_0])?;
    shape(rt, "body under Program", &[27_00_0])?;
    shape(rt, "method", &[26_00_3, 27_01_0, 28_02_0, 32_03_2, 1_03_1])?;
    shape(
        rt,
        "method under Class",
        &[26_00_3, 27_01_0, 28_01_0, 32_03_2, 1_03_1],
    )?;
    shape(rt, "property under Program", &[29_00_0, 32_01_2])?;
    shape(rt, "accessor under Program", &[30_00_0, 32_01_2])?;
    shape(rt, "static block under Program", &[3_00_0])
}

// 14, and 13 at the last. 28-30 have one key and at most one value, 28 one Function as value.
fn elements(rt: &impl Print) -> io::Result<()> {
    shape(
        rt,
        "property without value",
        &[26_00_3, 27_01_0, 29_02_0, 32_03_2],
    )?;
    shape(
        rt,
        "property with value",
        &[26_00_3, 27_01_0, 29_02_0, 32_03_2, 35_03_1],
    )?;
    shape(
        rt,
        "property with two",
        &[26_00_3, 27_01_0, 29_02_0, 32_03_2, 35_03_1, 35_03_1],
    )?;
    shape(
        rt,
        "property without key",
        &[26_00_3, 27_01_0, 29_02_0, 35_03_1],
    )?;
    shape(
        rt,
        "accessor with two keys",
        &[26_00_3, 27_01_0, 30_02_0, 32_03_2, 32_03_2],
    )?;
    shape(
        rt,
        "accessor with two values",
        &[26_00_3, 27_01_0, 30_02_0, 32_03_2, 35_03_1, 35_03_1],
    )?;
    shape(
        rt,
        "method without key",
        &[26_00_3, 27_01_0, 28_02_0, 1_03_1],
    )?;
    shape(
        rt,
        "method without value",
        &[26_00_3, 27_01_0, 28_02_0, 32_03_2],
    )?;
    shape(
        rt,
        "method with two values",
        &[26_00_3, 27_01_0, 28_02_0, 32_03_2, 1_03_1, 1_03_1],
    )?;
    shape(
        rt,
        "method with an Arrow",
        &[26_00_3, 27_01_0, 28_02_0, 32_03_2, 2_03_1],
    )
}

// 5. Scope flags above 31; scope 0's parent not 0; another's parent not smaller; all scope records before any node.
fn scope_records(rt: &impl Print) -> io::Result<()> {
    judge(rt, "all scope flags", &[55_00_0], 170, 0, 4, 31)?;
    judge(rt, "scope flags 32", &[55_00_0], 170, 0, 4, 32)?;
    judge(rt, "scope 0 under 1", &[55_00_0], 170, 0, 0, 1)?;
    judge(rt, "scope 1 under itself", &[55_00_0], 170, 0, 3, 1)?;
    judge(rt, "scope 0 of node 1", &[55_00_0], 170, 0, 2, 1)?;
    judge(rt, "an unused scope of no node", &[55_00_0], 170, 0, 5, 9)?;
    judge(rt, "a scope in the chain", &[55_00_0], 15, 1, 2, 1)?;
    judge(rt, "records before nodes", &[55_00_0], 5, 2, 4, 32)
}

// 3. Depth above 512 (node 0 has depth 0): each node under the one before.
fn chain(nodes: &mut [u32; 5140]) {
    for i in 1..514u32 {
        let at = i as usize * 10;
        nodes[at] = 55;
        nodes[at + 1] = i - 1;
    }
}

fn depth_of(rt: &impl Print, nodes: &[u32; 5140]) -> io::Result<()> {
    let scopes = [0u32; 3];
    cut(rt, "512 deep", 0, nodes, 5130, &scopes, 3, b"", 0, 0)?;
    cut(rt, "513 deep", 0, nodes, 5140, &scopes, 3, b"", 0, 0)
}

fn depth(rt: &impl Print) -> io::Result<()> {
    let mut nodes = [0u32; 5140];
    chain(&mut nodes);
    depth_of(rt, &nodes)
}

// 1. A table is empty or no whole number of records; source type above 1.
fn sizes(rt: &impl Print) -> io::Result<()> {
    let zeros = [0u32; 11];
    cut(rt, "one of each", 1, &zeros, 10, &zeros, 3, b"", 0, 0)?;
    cut(rt, "no node", 0, &zeros, 0, &zeros, 3, b"", 0, 0)?;
    cut(rt, "11 numbers", 0, &zeros, 11, &zeros, 3, b"", 0, 0)?;
    cut(rt, "no scope", 0, &zeros, 10, &zeros, 0, b"", 0, 0)?;
    cut(rt, "4 numbers", 0, &zeros, 10, &zeros, 4, b"", 0, 0)?;
    cut(rt, "source type 2", 2, &zeros, 10, &zeros, 3, b"", 0, 0)?;
    cut(rt, "source type 3", 3, &zeros, 10, &zeros, 3, b"", 0, 0)
}

// n numbers as nodes and s as scopes, all 0, a bytes of source and b of names.
fn sized(
    rt: &impl Print,
    label: &str,
    zeros: &[u32],
    letters: &[u8],
    n: usize,
    s: usize,
    a: usize,
    b: usize,
) -> io::Result<()> {
    cut(rt, label, 0, zeros, n, zeros, s, letters, a, b)
}

// 1. .. more than 65,535 records (so many Programs are refused for another reason); source or names above 1,048,576 bytes.
fn most(rt: &impl Print, zeros: &[u32; 655360], letters: &[u8; 1048577]) -> io::Result<()> {
    sized(rt, "65,535 nodes", zeros, letters, 655350, 3, 0, 0)?;
    sized(rt, "65,536 nodes", zeros, letters, 655360, 3, 0, 0)?;
    sized(rt, "65,535 scopes", zeros, letters, 10, 196605, 0, 0)?;
    sized(rt, "65,536 scopes", zeros, letters, 10, 196608, 0, 0)?;
    sized(rt, "most source", zeros, letters, 10, 3, 1048576, 0)?;
    sized(rt, "more source", zeros, letters, 10, 3, 1048577, 0)?;
    sized(rt, "most names", zeros, letters, 10, 3, 0, 1048576)?;
    sized(rt, "more names", zeros, letters, 10, 3, 0, 1048577)
}

fn large(rt: &impl Print) -> io::Result<()> {
    let zeros = [0u32; 655360];
    let letters = [97u8; 1048577];
    most(rt, &zeros, &letters)
}

fn main(rt: HostRuntime) -> io::Result<()> {
    sizes(&rt)?;
    large(&rt)?;
    listed(&rt)?;
    listed_in_typescript(&rt)?;
    listed_extra(&rt)?;
    tree(&rt)?;
    depth(&rt)?;
    spans(&rt)?;
    scope_records(&rt)?;
    scopes_of_nodes(&rt)?;
    order(&rt)?;
    order_of_shape(&rt)?;
    walks(&rt)?;
    returns(&rt)?;
    statements(&rt)?;
    other_kinds(&rt)?;
    bodies(&rt)?;
    switches(&rt)?;
    tries(&rt)?;
    clauses(&rt)?;
    labels(&rt)?;
    functions(&rt)?;
    classes(&rt)?;
    elements(&rt)
}
