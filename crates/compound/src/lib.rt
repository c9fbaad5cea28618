// The compound function (1 + x)^y in f32, with the route that its answer took. A translation of
// `f_compoundf` in `compoundf.rs` of pxfm 0.1.30 (NOTICE). For every pair of patterns the answer is
// the definition's, in specs/Route.antt, route and value.
#![tactic(auto)]

ghost use Rattle.std.specs.Prelude.{◌≡◌};
ghost use Rattle.std.specs.Float.{binary32};
ghost use Rattle.std.specs.Float.Ieee.{of_bits};
ghost use Rattle.compound.specs.Answer.{outcome, word};
ghost use Rattle.compound.specs.Route as spec;
ghost use Rattle.compound.specs.Starred.{StarredPairs};

use crate::choice::table_path;
use special::{as_compoundf_special, is_rule};
use whole::{is_whole, whole};

mod choice;

// The way by which an answer is found.
#[derive(Clone, Copy, PartialEq, Eq, Debug)]
pub enum Route {
    Rule,
    Whole,
    Edge,
    Fast,
    Slow,
}

impl Route {
    // Its name. It is no `Display`: the name is put into answer lines as bytes, and its length is asked for.
    #[tactic(auto, unfolding(crate::specs::Answer::word))]
    pub fn word(self) -> &'static str
        ensures { result.now ≡ word self }
    {
        match self {
            Route::Rule => "rule",
            Route::Whole => "whole",
            Route::Edge => "edge",
            Route::Fast => "fast",
            Route::Slow => "slow",
        }
    }
}

// The answer: one of five routes, each carrying its f32. Document 01 asks for an enum of five cases.
#[derive(Clone, Copy)]
pub enum Answer {
    Rule(f32),
    Whole(f32),
    Edge(f32),
    Fast(f32),
    Slow(f32),
}

impl Answer {
    // f of its route and of the f32 that it carries. There is an arm for each route, so that the compiler
    // works f out with the route known.
    #[tactic(auto, unfolding(crate::specs::Answer::outcome))]
    pub fn with<R, F: FnOnce(Route, f32) -> R>(self, f: F) -> R
        requires { F.pre f (outcome self).via (outcome self).value }
        ensures { F.post f (outcome self).via (outcome self).value result }
    {
        match self {
            Answer::Rule(r) => f(Route::Rule, r),
            Answer::Whole(r) => f(Route::Whole, r),
            Answer::Edge(r) => f(Route::Edge, r),
            Answer::Fast(r) => f(Route::Fast, r),
            Answer::Slow(r) => f(Route::Slow, r),
        }
    }

    // The f32 that it carries.
    pub fn value(self) -> f32
        ensures { result ≡ (outcome self).value }
    {
        self.with(|_, r| r)
    }

    // Its route.
    pub fn route(self) -> Route
        ensures { result ≡ (outcome self).via }
    {
        self.with(|route, _| route)
    }
}

// (1 + x)^y, for the f32s x and y of the patterns nx and ny. They are two parameters, here and in what
// is called with them, as in the source and as C hands them: every two patterns are a pair, so that a
// struct of them would hold no fact.
#[tactic(auto, unfolding(crate::specs::Answer::outcome, crate::specs::Route::compound))]
pub fn f_compoundf(nx: u32, ny: u32) -> Answer
    ensures { outcome result ≡ spec.compound (of_bits binary32 nx) (of_bits binary32 ny) }
{
    if is_rule(nx, ny) {
        return Answer::Rule(as_compoundf_special(nx, ny));
    }
    if is_whole(nx, ny) {
        return Answer::Whole(whole(f32::from_bits(nx), f32::from_bits(ny)));
    }
    table_path(nx, ny)
}

// The table of pairs at the edges: route and value at each starred one. There is nothing to run: the
// contract is the theorem.
pub fn starred_pairs()
    ensures { StarredPairs }
{}
