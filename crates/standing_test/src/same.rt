// Whether two records are one problem, and two answers alike.
use knapsack::Answer;
use model::Model;

// Counts, capacity, and so many items and lines: places beyond the counts play no part.
pub fn same_problem(a: Model, b: Model) -> bool {
    let mut items = a.items.iter().zip(&b.items).take(a.count);
    let mut lines = a.needs.lines.iter().zip(&b.needs.lines).take(a.needs.count);
    a.count == b.count
        && a.capacity == b.capacity
        && a.needs.count == b.needs.count
        && items.all(|(x, y)| x == y)
        && lines.all(|(x, y)| x == y)
}

// In kind and value.
pub fn alike(a: Answer, b: Answer) -> bool {
    a.kind == b.kind && a.value == b.value
}
