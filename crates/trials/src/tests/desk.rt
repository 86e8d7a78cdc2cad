// A session with the map and the sheet that its calls are lent.
use calls::fault::SessionFault;
use map::Map;
use session::held::Session;
use session::rows::Marked;
use stl::row::Row;

#[derive(Drop)]
pub(crate) struct Desk<'a, M, const N: usize> {
    pub(crate) map: &'a M,
    pub(crate) sheet: [u64; N],
    pub(crate) session: Session,
}

impl<'a, M: Map, const N: usize> Desk<'a, M, N> {
    // Opens a session on a sheet that holds this.
    pub(crate) fn open(map: &'a M, sheet: [u64; N]) -> Result<Desk<'a, M, N>, SessionFault> {
        let mut sheet = sheet;
        let session = Session::open(map, &mut sheet)?;
        Ok(Desk {
            map,
            sheet,
            session,
        })
    }

    pub(crate) fn add(&mut self, row: Row) -> Result<u32, SessionFault> {
        self.session.add(self.map, &self.sheet, row)
    }

    pub(crate) fn mark(&mut self) -> Result<Marked, SessionFault> {
        self.session.mark(self.map, &mut self.sheet)
    }

    pub(crate) fn label(&self, s: u32, r: u32) -> Result<bool, SessionFault> {
        self.session.label(self.map, &self.sheet, s, r)
    }

    pub(crate) fn verdict(&self, r: u32) -> Result<bool, SessionFault> {
        self.session.verdict(self.map, &self.sheet, r)
    }

    pub(crate) fn witness(
        &self,
        s: u32,
        r: u32,
        work: &mut [u32],
        run: &mut [u32],
    ) -> Result<u32, SessionFault> {
        self.session.witness(self.map, &self.sheet, s, r, work, run)
    }
}
