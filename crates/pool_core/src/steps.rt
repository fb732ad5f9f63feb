// The rule of a lane's queue, and the kinds of step that keep it.
ghost use Rattle.pool_core.specs.Pass.{split_off, with_one_more_out, joined};
ghost use Rattle.pool_core.specs.Rule.{Kept, Puts, Takes, PutsData, TakesData, Learns, Agrees, fresh_pass, spent};

use crate::{Cargo, LaneRule, PassView};
use crossbeam_queue::protocol::{Join, Lesson, Outcome, Protocol, Split};
use rack_outside::Numbered;
use std::marker::PhantomData;

/// The rule of a lane's queue, as `specs/Rule.antt` says it. No value of it is made.
pub struct OneLane<T, R>(PhantomData<(T, R)>);

impl<T: Numbered, R: LaneRule<T>> Protocol<Cargo<T, R::Data>, PassView<R::Data>> for OneLane<T, R> {
    ghost holds = { Kept (λ x. (T.number_of x, T.tag x)) R.fits };

    ghost first = { fresh_pass };
}

// The data go in.
pub struct Load<T, R>(PhantomData<(T, R)>);

impl<T: Numbered, R: LaneRule<T>> Outcome<Cargo<T, R::Data>, PassView<R::Data>> for Load<T, R> {
    ghost then = { PutsData (λ x. (T.number_of x, T.tag x)) R.fits };
}

// The data come out.
pub struct Open<T, R>(PhantomData<(T, R)>);

impl<T: Numbered, R: LaneRule<T>> Outcome<Cargo<T, R::Data>, PassView<R::Data>> for Open<T, R> {
    ghost then = { TakesData (λ x. (T.number_of x, T.tag x)) R.fits };
}

// An item goes in.
pub struct Put<T, R>(PhantomData<(T, R)>);

impl<T: Numbered, R: LaneRule<T>> Outcome<Cargo<T, R::Data>, PassView<R::Data>> for Put<T, R> {
    ghost then = { Puts (λ x. (T.number_of x, T.tag x)) R.fits };
}

impl<T: Numbered, R: LaneRule<T>> Lesson<Cargo<T, R::Data>, PassView<R::Data>> for Put<T, R> {
    ghost fact = { Learns (λ x. (T.number_of x, T.tag x)) R.fits };
}

// An item comes out.
pub struct Take<T, R>(PhantomData<(T, R)>);

impl<T: Numbered, R: LaneRule<T>> Outcome<Cargo<T, R::Data>, PassView<R::Data>> for Take<T, R> {
    ghost then = { Takes (λ x. (T.number_of x, T.tag x)) R.fits };
}

impl<T: Numbered, R: LaneRule<T>> Lesson<Cargo<T, R::Data>, PassView<R::Data>> for Take<T, R> {
    ghost fact = { Learns (λ x. (T.number_of x, T.tag x)) R.fits };
}

// One pass becomes two, or two become one.
pub struct Part;

impl<D> Split<PassView<D>> for Part {
    ghost left = { with_one_more_out };

    ghost right = { split_off };
}

impl<D> Join<PassView<D>> for Part {
    ghost both = { joined };

    ghost spent = { spent };
}

impl<T, D> Lesson<Cargo<T, D>, PassView<D>> for Part {
    ghost fact = { Agrees };
}
