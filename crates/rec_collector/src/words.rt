//! Runs of turns for the machine that is at work: each word that it asks for is found by a turn.
ghost use Rattle.rec_collector.specs.Running.{FreeingRuns, PreparingRuns, SweepingRuns, TryingRuns};

use crate::turns::Turns;
use rec_release::{Clears, Frees};
use rec_sigma::Loads as Prepares;
use rec_trial::Loads as Tries;
use rec_word::Op;
use std::marker::{Brand, PhantomData};

/// The machine as a run began. Each call picks it.
pub trait Starting {
    ghost use Rattle.rec_collector.specs.Private.{Private};

    ghost start: { Private };
}

impl Starting for Brand {
    ghost use Rattle.rec_collector.specs.Running.{some_machine};

    ghost start = { some_machine };
}

/// Words are loaded for a trial by turns.
pub(crate) struct Trying<T, W: Starting> {
    by: PhantomData<T>,
    of: PhantomData<W>,
}

impl<B, S, T: Turns<B, S>, W: Starting> Tries<B, S> for Trying<T, W> {
    ghost StandsAt = { λ board seat n w. TryingRuns (T.StandsAt board seat) W.start n w };

    #[inline(always)]
    fn load(board: &B, seat: &mut S, place: u32) -> u64 {
        T::make(board, seat, Op::LoadChild(place))
    }
}

/// Words are loaded for a preparation by turns.
pub(crate) struct Preparing<T, W: Starting> {
    by: PhantomData<T>,
    of: PhantomData<W>,
}

impl<B, S, T: Turns<B, S>, W: Starting> Prepares<B, S> for Preparing<T, W> {
    ghost StandsAt = { λ board seat n w. PreparingRuns (T.StandsAt board seat) W.start n w };

    #[inline(always)]
    fn load(board: &B, seat: &mut S, place: u32) -> u64 {
        T::make(board, seat, Op::LoadChild(place))
    }
}

/// Fields are cleared for the freeing of a set by turns.
pub(crate) struct Freeing<T, W: Starting> {
    by: PhantomData<T>,
    of: PhantomData<W>,
}

impl<B, S, T: Turns<B, S>, W: Starting> Clears<B, S> for Freeing<T, W> {
    ghost StandsAt = { λ board seat n w. FreeingRuns (T.StandsAt board seat) W.start n w };

    #[inline(always)]
    fn clear(board: &B, seat: &mut S, place: u32) -> u64 {
        T::make(board, seat, Op::ClearField(place))
    }
}

/// Headers are freed for a sweep by turns.
pub(crate) struct Sweeping<T, W: Starting> {
    by: PhantomData<T>,
    of: PhantomData<W>,
}

impl<B, S, T: Turns<B, S>, W: Starting> Frees<B, S> for Sweeping<T, W> {
    ghost StandsAt = { λ board seat n w. SweepingRuns (T.StandsAt board seat) W.start n w };

    #[inline(always)]
    fn free(board: &B, seat: &mut S, slot: u16) -> u64 {
        T::make(board, seat, Op::FreeHeader(slot))
    }
}
