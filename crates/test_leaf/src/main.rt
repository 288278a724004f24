// Answers questions on the leaf functions of layer 1 and on budgets, a line each, as the program `leaf` of compare/ does
// over the published Rust and, of copies, by document 02's text; compare/README.md has the questions.
#![tactic(auto)]

mod answer;
mod axis;
mod budget;
mod copy;
mod fields;
mod grid;
mod lines;
mod question;
mod rect;
mod shape;

fn main(rt: HostRuntime) {
    let mut buf = io::large_buffer();
    let mut out = io::large_buffer();
    lines::answer_all(&mut rt.stdin(), &mut buf, &mut out);
}
