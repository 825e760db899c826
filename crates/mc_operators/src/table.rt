ghost use Rattle.std.specs.Prelude.{◌≡◌};
ghost use Rattle.mc_operators.specs.Table.{same_name, row_of, infix_row, prefix_row, arithmetic_rows, comparing_rows, joining_rows, declaring_rows, sign_rows, goal_rows, item_rows, left_out_rows};

/// How an operator stands to its operands: an `x` operand has a smaller number than the operator, a
/// `y` operand at most the same.
#[derive(Clone, Copy, Debug, PartialEq, Eq)]
pub enum Fix {
    Xfx,
    Xfy,
    Yfx,
    Fx,
    Fy,
    Fxy,
}

/// Whether a name is this word. It takes no memory.
#[tactic(auto, using(crate::proofs::Rows::same_bytes))]
pub fn is(word: &[u8], name: &[u8]) -> bool
    ensures { result ≡ same_name word.now name.now }
{
    word == name
}

/// The number and the kind of an infix operator, None where the name is none. It takes no memory.
#[tactic(auto, unfolding(crate::specs::Table::infix_row))]
pub fn infix(name: &[u8]) -> Option<(u32, Fix)>
    ensures { result ≡ infix_row name.now }
{
    if let Some(row) = arithmetic(name) {
        return Some(row);
    }
    if let Some(row) = comparing(name) {
        return Some(row);
    }
    if let Some(row) = joining(name) {
        return Some(row);
    }
    declaring(name)
}

// The operators of arithmetic, and those of fields and insts.
#[tactic(auto, unfolding(crate::specs::Table::arithmetic_rows))]
fn arithmetic(name: &[u8]) -> Option<(u32, Fix)>
    ensures { result ≡ row_of arithmetic_rows name.now }
{
    if is(b"^", name) {
        return Some((99, Fix::Xfy));
    }
    if is(b"*", name) || is(b"/", name) || is(b"//", name) || is(b"div", name) || is(b">>", name) {
        return Some((400, Fix::Yfx));
    }
    if is(b"mod", name) || is(b"rem", name) {
        return Some((400, Fix::Xfx));
    }
    if is(b"+", name) || is(b"-", name) {
        return Some((500, Fix::Yfx));
    }
    if is(b"++", name) {
        return Some((500, Fix::Xfy));
    }
    if is(b"for", name) {
        return Some((500, Fix::Xfx));
    }
    None
}

// The operators that compare.
#[tactic(auto, unfolding(crate::specs::Table::comparing_rows))]
fn comparing(name: &[u8]) -> Option<(u32, Fix)>
    ensures { result ≡ row_of comparing_rows name.now }
{
    if is(b":=", name) {
        return Some((650, Fix::Xfx));
    }
    if is(b"=", name)
        || is(b"\\=", name)
        || is(b"<", name)
        || is(b">", name)
        || is(b"=<", name)
        || is(b">=", name)
        || is(b"==", name)
    {
        return Some((700, Fix::Xfx));
    }
    if is(b"is", name) {
        return Some((701, Fix::Xfx));
    }
    None
}

// The operators that join goals.
#[tactic(auto, unfolding(crate::specs::Table::joining_rows))]
fn joining(name: &[u8]) -> Option<(u32, Fix)>
    ensures { result ≡ row_of joining_rows name.now }
{
    if is(b"=>", name) || is(b"<=", name) || is(b"<=>", name) {
        return Some((920, Fix::Xfy));
    }
    if is(b",", name) {
        return Some((1000, Fix::Xfy));
    }
    if is(b"&", name) {
        return Some((1025, Fix::Xfy));
    }
    if is(b"->", name) {
        return Some((1050, Fix::Xfy));
    }
    if is(b";", name) {
        return Some((1100, Fix::Xfy));
    }
    if is(b"then", name) {
        return Some((1150, Fix::Xfx));
    }
    if is(b"else", name) {
        return Some((1170, Fix::Xfy));
    }
    None
}

// The operators of items.
#[tactic(auto, unfolding(crate::specs::Table::declaring_rows))]
fn declaring(name: &[u8]) -> Option<(u32, Fix)>
    ensures { result ≡ row_of declaring_rows name.now }
{
    if is(b"::", name) || is(b"where", name) {
        return Some((1175, Fix::Xfx));
    }
    if is(b"--->", name) {
        return Some((1179, Fix::Xfy));
    }
    if is(b":-", name) || is(b"-->", name) {
        return Some((1200, Fix::Xfx));
    }
    None
}

/// The number and the kind of a prefix operator, None where the name is none. It takes no memory.
#[tactic(auto, unfolding(crate::specs::Table::prefix_row))]
pub fn prefix(name: &[u8]) -> Option<(u32, Fix)>
    ensures { result ≡ prefix_row name.now }
{
    if let Some(row) = sign(name) {
        return Some(row);
    }
    if let Some(row) = goal(name) {
        return Some(row);
    }
    if let Some(row) = item(name) {
        return Some(row);
    }
    left_out(name)
}

// The operators before a term.
#[tactic(auto, unfolding(crate::specs::Table::sign_rows))]
fn sign(name: &[u8]) -> Option<(u32, Fix)>
    ensures { result ≡ row_of sign_rows name.now }
{
    if is(b"!", name) || is(b"!.", name) || is(b"!:", name) {
        return Some((40, Fix::Fx));
    }
    if is(b"-", name) {
        return Some((200, Fix::Fx));
    }
    if is(b"+", name) {
        return Some((500, Fix::Fx));
    }
    None
}

// The operators before a goal.
#[tactic(auto, unfolding(crate::specs::Table::goal_rows))]
fn goal(name: &[u8]) -> Option<(u32, Fix)>
    ensures { result ≡ row_of goal_rows name.now }
{
    if is(b"pred", name) || is(b"func", name) {
        return Some((800, Fix::Fx));
    }
    if is(b"impure", name) || is(b"semipure", name) {
        return Some((800, Fix::Fy));
    }
    if is(b"not", name) || is(b"\\+", name) {
        return Some((900, Fix::Fy));
    }
    if is(b"some", name) || is(b"all", name) {
        return Some((950, Fix::Fxy));
    }
    if is(b"if", name) {
        return Some((1160, Fix::Fx));
    }
    None
}

// The operators before an item.
#[tactic(auto, unfolding(crate::specs::Table::item_rows))]
fn item(name: &[u8]) -> Option<(u32, Fix)>
    ensures { result ≡ row_of item_rows name.now }
{
    if is(b"type", name) {
        return Some((1180, Fix::Fx));
    }
    if is(b"solver", name) {
        return Some((1181, Fix::Fy));
    }
    if is(b"module", name)
        || is(b"import_module", name)
        || is(b"use_module", name)
        || is(b"end_module", name)
        || is(b"inst", name)
        || is(b"mode", name)
        || is(b"pragma", name)
    {
        return Some((1199, Fix::Fx));
    }
    None
}

// The operators before an item that this profile leaves out, and the one before any item.
#[tactic(auto, unfolding(crate::specs::Table::left_out_rows))]
fn left_out(name: &[u8]) -> Option<(u32, Fix)>
    ensures { result ≡ row_of left_out_rows name.now }
{
    if is(b"include_module", name)
        || is(b"typeclass", name)
        || is(b"instance", name)
        || is(b"promise", name)
        || is(b"initialise", name)
    {
        return Some((1199, Fix::Fx));
    }
    if is(b":-", name) {
        return Some((1200, Fix::Fx));
    }
    None
}
