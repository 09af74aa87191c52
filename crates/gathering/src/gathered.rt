// What the lines so far have given: counts, beside the scratch stores that they are gathered in.
use kinds::limits::Counts;
use lines::stage::Stage;

#[derive(Clone, Copy)]
pub struct Gathered {
    pub stage: Stage,
    pub classes: usize,
    pub counts: Counts,
    // How many atoms the conditions made; the counts have the declared ones.
    pub made: usize,
    // How far the scratch words and bytes are filled.
    pub words: usize,
    pub bytes: usize,
}
