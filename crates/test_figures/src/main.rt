// Figures of documents 01 and 02, each computed by the proved functions: a line for each, `name value`, or `name argument .. value` where a
// figure is that of arguments. The lines are held to `stdout`, which is written from their text; docs/FIGURES.md has the sentence for each.
#![tactic(auto)]

mod calls;
mod copies;
mod extents;
mod formats;
mod forming;
mod histories;
mod limits;
mod opening;
mod print;
mod sheets;
mod texts;
mod uploads;

// Prints every figure.
fn main() {
    limits::print_limits();
    opening::print_sizes();
    forming::print_numbers();
    extents::print_extents();
    formats::print_formats();
    uploads::print_uploads();
    texts::print_texts();
    copies::print_copies();
    calls::print_calls();
    histories::print_histories();
    sheets::print_sheets();
}
