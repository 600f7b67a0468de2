// A trial: a closed sheet with one order edge more, for as long as the trial stands.
ghost use Rattle.std.specs.Prelude.{◌≡◌};
ghost use Rattle.sheet.specs.Book.{after, ended};
ghost use Rattle.sheet.specs.Sets.{laid};
ghost use Rattle.sheet.specs.Sheets.{closed_book};
ghost use Rattle.sheet.specs.Trials.{trial_book};
ghost use Rattle.sheet.specs.declared.calls.Call.TheVariants.{Try};

use crate::calls::Edge;
use crate::closed::ClosedSheet;
use crate::edges::Edges;

pub struct Trial<'a> {
    sheet: &'a mut ClosedSheet,
    // the edge that was laid
    edge: Option<(u8, u8)>,
}

impl<'a> Trial<'a> {
    // Lays the order edge, and cannot refuse: `check_order` comes before. Where the check would have refused, no edge is
    // laid and no trial stands.
    pub fn new(sheet: &'a mut ClosedSheet, first: u8, second: u8) -> Trial<'a>
        ensures lends { result.sheet.ghost_name ≡ sheet.entry.ghost_name }
        ensures book { trial_book result ≡ after (closed_book sheet.old) (Try first second) }
        ensures undone { ended (trial_book result) ≡ closed_book sheet.old }
    {
        let edge = sheet
            .order(first, second)
            .is_ok()
            .then_some((first, second));
        Trial { sheet, edge }
    }

    // The sheet's edges, with the trial's edge.
    pub fn edges(&self) -> Edges
        ensures { laid result ≡ (trial_book self.now).edges }
    {
        *self.sheet.edges()
    }

    // The trial's edge; none where no trial stands.
    pub fn edge(&self) -> Option<(u8, u8)>
        ensures { result ≡ (trial_book self.now).trial }
    {
        self.edge
    }
}

impl Drop for Trial<'_> {
    // The edge is taken out, on whichever way out.
    fn drop(self)
        ensures { closed_book self.exit.0.now ≡ ended (trial_book self.entry) }
    {
        let Trial { sheet, edge } = self;
        if let Some((first, second)) = edge {
            sheet
                .edges
                .remove(Edge::Order, first as usize, second as usize);
        }
    }
}
