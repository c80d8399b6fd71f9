use serial_link::{Link, Sent};
use station_io::{Put, Sink};

/// Why a piece was refused.
#[derive(Clone, Copy, Debug, PartialEq, Eq)]
pub enum Refusal {
    /// The link failed.
    LinkFault,
    /// The link found no memory.
    OutOfMemory,
}

/// A sink whose pieces are said over a link, each as one message.
#[derive(Drop)]
pub struct LinkSink<'a, L> {
    /// The link that is spoken over.
    pub link: &'a mut L,
    /// Why a piece was refused, if one was. Nothing more is said then.
    pub refusal: Option<Refusal>,
}

impl<'a, L: Link> Sink for LinkSink<'a, L> {
    ghost use Rattle.query_service.specs.SaidOver.{saying_outlet};

    ghost outlet = { saying_outlet L.traffic };

    /// Once a piece was refused each later one is refused too, since a prefix of its message may have been said.
    fn put(&mut self, bytes: &[u8]) -> Put {
        if let Some(_) = self.refusal {
            return Put::Failed;
        }
        match self.link.send(bytes) {
            Sent::Done => Put::Done,
            Sent::Failed => {
                self.refusal = Some(Refusal::LinkFault);
                Put::Failed
            }
            Sent::OutOfMemory => {
                self.refusal = Some(Refusal::OutOfMemory);
                Put::Failed
            }
        }
    }
}
