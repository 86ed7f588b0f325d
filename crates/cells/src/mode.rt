// Whether an edit asks for the products that it makes stale. A value and no closure: the clauses say by it which products
// are owed to be true, and how many an edit may ask for.
#[derive(Clone, Copy)]
pub enum Mode {
    // It asks for each of them anew.
    Asking,
    // It asks for none, as on a paused sheet.
    Quiet,
}
