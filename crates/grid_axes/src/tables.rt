// The tables of tile edges, a file for each block edge.
pub mod block_1;
pub mod block_4;
