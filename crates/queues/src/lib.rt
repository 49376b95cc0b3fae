// The five queues by name (`queue.kind`), and five things of a kind, one for each. It knows no queue's use.
#![tactic(auto)]

ghost use Rattle.std.specs.Prelude.{◌≡◌};
ghost use Rattle.queues.specs.Each.{of, with, every};

// Commands, receipts, payload to send, payload received, interrupt entries.
#[derive(Clone, Copy)]
pub enum Queue {
    Cmd,
    Cmdr,
    Sdo,
    Sdi,
    Ibi,
}

// One for each queue, in the order of `store.order`.
#[derive(Clone, Copy, PartialEq, Eq)]
pub struct Five<T> {
    pub cmd: T,
    pub cmdr: T,
    pub sdo: T,
    pub sdi: T,
    pub ibi: T,
}

impl<T: Copy> Five<T> {
    // The same for every queue.
    pub fn every(x: T) -> Five<T>
        ensures { result ≡ every x }
    {
        Five {
            cmd: x,
            cmdr: x,
            sdo: x,
            sdi: x,
            ibi: x,
        }
    }

    // That of a queue.
    pub fn of(self, q: Queue) -> T
        ensures { result ≡ of q self }
    {
        match q {
            Queue::Cmd => self.cmd,
            Queue::Cmdr => self.cmdr,
            Queue::Sdo => self.sdo,
            Queue::Sdi => self.sdi,
            Queue::Ibi => self.ibi,
        }
    }

    // The five with another for a queue.
    pub fn with(self, q: Queue, x: T) -> Five<T>
        ensures { result ≡ with q x self }
    {
        match q {
            Queue::Cmd => Five { cmd: x, ..self },
            Queue::Cmdr => Five { cmdr: x, ..self },
            Queue::Sdo => Five { sdo: x, ..self },
            Queue::Sdi => Five { sdi: x, ..self },
            Queue::Ibi => Five { ibi: x, ..self },
        }
    }

    // The same five, put together field by field: fields that are copied in one piece stay in memory through a list of
    // calls, stored one by one and loaded together, which stalls.
    pub fn by_field(self) -> Five<T>
        ensures { result ≡ self }
    {
        Five {
            cmd: self.cmd,
            cmdr: self.cmdr,
            sdo: self.sdo,
            sdi: self.sdi,
            ibi: self.ibi,
        }
    }
}
