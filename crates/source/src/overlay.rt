// One source over another.
ghost use Rattle.std.specs.Prelude.{◌≡◌, ◌+◌, min};
ghost use Rattle.source.specs.Meaning.{over};

use crate::{Fault, Kind, ObjectId, Source};

// A front source over a back one: it answers as the front, and as the back where the front has nothing. Faults of the
// back lie deeper by as many layers as the front has.
#[derive(Clone, Copy, Debug, Drop)]
pub struct Overlay<F, B> {
    pub front: F,
    pub back: B,
}

// Each question is a match of its own: a helper that took the two answers as closures would be longer.
impl<F: Source, B: Source> Source for Overlay<F, B> {
    ghost meaning = { λ s id. over (F.Source.layers s.front) (F.Source.meaning s.front id) (B.Source.meaning s.back id) };

    ghost layers = { λ s. min 255 (F.Source.layers s.front + B.Source.layers s.back) };

    fn kind(&self, id: ObjectId) -> Kind {
        match self.front.kind(id) {
            Kind::Absent => self.back.kind(id),
            kind => kind,
        }
    }

    fn fault(&self, id: ObjectId) -> Option<Fault> {
        match self.front.kind(id) {
            Kind::Absent => {
                let fault = self.back.fault(id)?;
                let layer = fault.layer.saturating_add(self.front.depth());
                Some(Fault { layer, ..fault })
            }
            _ => self.front.fault(id),
        }
    }

    fn date(&self, id: ObjectId) -> Option<i64> {
        match self.front.kind(id) {
            Kind::Absent => self.back.date(id),
            _ => self.front.date(id),
        }
    }

    fn parent_count(&self, id: ObjectId) -> Option<usize> {
        match self.front.kind(id) {
            Kind::Absent => self.back.parent_count(id),
            _ => self.front.parent_count(id),
        }
    }

    fn parent(&self, id: ObjectId, n: usize) -> Option<ObjectId> {
        match self.front.kind(id) {
            Kind::Absent => self.back.parent(id, n),
            _ => self.front.parent(id, n),
        }
    }

    fn depth(&self) -> u8 {
        self.front.depth().saturating_add(self.back.depth())
    }
}
