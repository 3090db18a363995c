// The types of rating: what the rules of 01 work out for each codelist line, and the answer: the limits, or a refusal.
#![tactic(auto)]

use range::Range;

// A codelist line, worked out over the ranges of the factors. A set of factors is a mask: the factor a, counted from 0, is the bit a.
// The specs alone use it; `Limits` has the full bend besides.
#[derive(Clone, Copy, PartialEq, Eq)]
pub struct Line {
    // 01's V.
    pub value: Range,
    // 01's slopes G.
    pub gradient: [Range; 8],
    // 01's depends-on set P.
    pub support: u8,
    // 01's bent set B.
    pub nonlinear: u8,
    // 01's bend E: bounds of the eigenvalues of the Hessian, reduced to the factors in `nonlinear`.
    pub spectrum: Range,
}

// Why ranges are not rated: 01's refusals 8 to 12.
#[derive(Clone, Copy, PartialEq, Eq)]
pub enum Refusal {
    // 10: there is no codelist.
    NoCodelist,
    // 8: not exactly two numbers per factor.
    RangeCount,
    // 9: a low end above its high end, or an end beyond the limit; the factor, counted from 1.
    BadRange(u8),
    // 11: the range to be inverted holds 0; the codelist line.
    Divisor(u8),
    // 12: an end of a range produced by a step passes the limit; the codelist line.
    Overflow(u8),
}

// The limits of a class: 01's result.
#[derive(Clone, Copy, PartialEq, Eq)]
pub struct Limits {
    pub value: Range,
    pub gradient: [Range; 8],
    pub support: u8,
    pub nonlinear: u8,
    pub spectrum: Range,
    // 01's full bend.
    pub full: Range,
}

impl Limits {
    // "A refusal carries number and place, every other field is 0"
    pub const ZERO: Limits = Limits {
        value: Range::ZERO,
        gradient: [Range::ZERO; 8],
        support: 0,
        nonlinear: 0,
        spectrum: Range::ZERO,
        full: Range::ZERO,
    };
}
