//! Judging, making and asking a window over a source of words.
ghost use Rattle.std.specs.Prelude.{◌≡◌};
ghost use Rattle.words.specs.Bounds.{part_bounded};
ghost use Rattle.words.specs.Meaning.{MeansTheSame};
ghost use Rattle.words.specs.Windows.{judged_window, part_of, window_meaning, WholeMeansTheSame, WindowOfWindow};

use crate::refusal::Refusal;
use crate::source::Source;
use crate::window::Window;

/// Judges whether there is a window from the position `from` to the position `to` of `source`.
pub fn judge_window<S: Source>(source: &S, from: u32, to: u32) -> Result<(), Refusal>
    ensures { result ≡ judged_window (S.meaning source.now).last from to }
{
    if from > to || to > source.last_position() {
        return Err(Refusal::OutOfBounds);
    }
    Ok(())
}

impl<'a, S: Source> Window<'a, S> {
    /// The window from the position `from` to the position `to` of `source`: where `judge_window` refuses it, it has no edge,
    /// and its last position is 0.
    ///
    /// Its contract also names two facts of all windows: one over the whole of a source means what the source means, and a
    /// window over a window is a window.
    pub fn new(source: &'a S, from: u32, to: u32) -> Window<'a, S>
        ensures means { MeansTheSame (part_of (S.meaning result.source.now) result.first result.last) (window_meaning (S.meaning source.now) from to) }
        ensures whole { WholeMeansTheSame }
        ensures nested { WindowOfWindow }
    {
        if judge_window(source, from, to).is_err() {
            return Window {
                source,
                first: 0,
                last: 0,
            };
        }
        Window {
            source,
            first: from,
            last: to - from,
        }
    }
}

impl<S: Source> Source for Window<'_, S> {
    ghost meaning = { λ w. part_of (S.meaning w.source.now) w.first w.last };

    ghost bounded = { λ w. part_bounded (S.meaning w.source.now) w.first w.last (S.bounded w.source.now) };

    fn last_position(&self) -> u32 {
        self.last
    }

    fn has_edge(&self, from: u32, word: u16, to: u32) -> bool {
        if from >= to || to > self.last {
            return false;
        }
        self.source
            .has_edge(self.first + from, word, self.first + to)
    }
}
