// Answers as C has them (include/ledusprig.h): a refusal number, 0 where nothing was refused, and the answer beside it, all zeros where it was refused,
// but for the position of a word that was refused in a column or a block. A kind, an order or a saying is a number here, as it is there.
// The zeros beside a refusal are written out, so that each of them is seen.
pub mod columns;
pub mod numbers;
pub mod widths;
pub mod words;
