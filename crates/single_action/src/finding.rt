// The row of a name, by its length: a name is compared with a few others at most.
ghost use Rattle.std.specs.Prelude.{[], ◌∷◌};
ghost use Rattle.single_action.specs.Table.{Placed, Among};

// Names of up to three letters.
fn up_to_three(name: &[u8]) -> Option<usize>
    ensures { Among (13 ∷ 12 ∷ 9 ∷ 28 ∷ 15 ∷ 22 ∷ 14 ∷ []) name.now result }
{
    if ascii::same_lowered(name, b"tag") {
        return Some(13);
    }
    if ascii::same_lowered(name, b"msg") {
        return Some(12);
    }
    if ascii::same_lowered(name, b"id") {
        return Some(9);
    }
    if ascii::same_lowered(name, b"ctl") {
        return Some(28);
    }
    if ascii::same_lowered(name, b"ver") {
        return Some(15);
    }
    if ascii::same_lowered(name, b"log") {
        return Some(22);
    }
    if ascii::same_lowered(name, b"rev") {
        return Some(14);
    }
    None
}

// Of four.
fn of_four(name: &[u8]) -> Option<usize>
    ensures { Among (2 ∷ 0 ∷ 4 ∷ 7 ∷ 35 ∷ []) name.now result }
{
    if ascii::same_lowered(name, b"pass") {
        return Some(2);
    }
    if ascii::same_lowered(name, b"deny") {
        return Some(0);
    }
    if ascii::same_lowered(name, b"drop") {
        return Some(4);
    }
    if ascii::same_lowered(name, b"skip") {
        return Some(7);
    }
    if ascii::same_lowered(name, b"exec") {
        return Some(35);
    }
    None
}

// Of five.
fn of_five(name: &[u8]) -> Option<usize>
    ensures { Among (10 ∷ 1 ∷ 23 ∷ 6 ∷ 3 ∷ 38 ∷ 39 ∷ 40 ∷ []) name.now result }
{
    if ascii::same_lowered(name, b"phase") {
        return Some(10);
    }
    if ascii::same_lowered(name, b"block") {
        return Some(1);
    }
    if ascii::same_lowered(name, b"nolog") {
        return Some(23);
    }
    if ascii::same_lowered(name, b"chain") {
        return Some(6);
    }
    if ascii::same_lowered(name, b"allow") {
        return Some(3);
    }
    if ascii::same_lowered(name, b"proxy") {
        return Some(38);
    }
    if ascii::same_lowered(name, b"pause") {
        return Some(39);
    }
    if ascii::same_lowered(name, b"xmlns") {
        return Some(40);
    }
    None
}

// Of six and of seven.
fn six_or_seven(name: &[u8]) -> Option<usize>
    ensures { Among (20 ∷ 21 ∷ 18 ∷ 19 ∷ 29 ∷ 36 ∷ 37 ∷ 30 ∷ 31 ∷ []) name.now result }
{
    if ascii::same_lowered(name, b"setvar") {
        return Some(20);
    }
    if ascii::same_lowered(name, b"capture") {
        return Some(21);
    }
    if ascii::same_lowered(name, b"logdata") {
        return Some(18);
    }
    if ascii::same_lowered(name, b"status") {
        return Some(19);
    }
    if ascii::same_lowered(name, b"initcol") {
        return Some(29);
    }
    if ascii::same_lowered(name, b"append") {
        return Some(36);
    }
    if ascii::same_lowered(name, b"prepend") {
        return Some(37);
    }
    if ascii::same_lowered(name, b"setsid") {
        return Some(30);
    }
    if ascii::same_lowered(name, b"setuid") {
        return Some(31);
    }
    None
}

// Of eight.
fn of_eight(name: &[u8]) -> Option<usize>
    ensures { Among (11 ∷ 24 ∷ 16 ∷ 17 ∷ 5 ∷ []) name.now result }
{
    if ascii::same_lowered(name, b"severity") {
        return Some(11);
    }
    if ascii::same_lowered(name, b"auditlog") {
        return Some(24);
    }
    if ascii::same_lowered(name, b"maturity") {
        return Some(16);
    }
    if ascii::same_lowered(name, b"accuracy") {
        return Some(17);
    }
    if ascii::same_lowered(name, b"redirect") {
        return Some(5);
    }
    None
}

// Of nine and more.
fn over_eight(name: &[u8]) -> Option<usize>
    ensures { Among (25 ∷ 8 ∷ 34 ∷ 33 ∷ 26 ∷ 27 ∷ 32 ∷ []) name.now result }
{
    if ascii::same_lowered(name, b"noauditlog") {
        return Some(25);
    }
    if ascii::same_lowered(name, b"skipafter") {
        return Some(8);
    }
    if ascii::same_lowered(name, b"multimatch") {
        return Some(34);
    }
    if ascii::same_lowered(name, b"expirevar") {
        return Some(33);
    }
    if ascii::same_lowered(name, b"sanitisematched") {
        return Some(26);
    }
    if ascii::same_lowered(name, b"sanitizematched") {
        return Some(27);
    }
    if ascii::same_lowered(name, b"deprecatevar") {
        return Some(32);
    }
    None
}

// The row of a name in any letter case.
pub fn row_of(name: &[u8]) -> Option<usize>
    ensures { Placed name.now result }
{
    let n = name.len();
    if n < 4 {
        return up_to_three(name);
    }
    if n < 5 {
        return of_four(name);
    }
    if n < 6 {
        return of_five(name);
    }
    if n < 8 {
        return six_or_seven(name);
    }
    if n < 9 {
        return of_eight(name);
    }
    over_eight(name)
}
