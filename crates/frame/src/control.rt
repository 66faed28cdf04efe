// The control octet: who sends, the bits of the link procedure, and the function code.
ghost use Rattle.frame.specs.Controls.{bit, code_of, primary_octet, secondary_octet};
ghost use Rattle.std.specs.Prelude.{◌≡◌, ◌≤◌};

// The weights of the bits. From a reader, the bits of FCB and FCV are ACD and DFC.
const RESERVED: u8 = 0x80;

const PRM: u8 = 0x40;

const FCB: u8 = 0x20;

const FCV: u8 = 0x10;

// A control octet as it was heard or is to be sent, whatever its bits.
#[derive(Clone, Copy, PartialEq, Eq, Debug)]
pub struct Control {
    pub octet: u8,
}

impl Control {
    // From the concentrator: PRM 1, the frame count bit, whether that is valid, and the low four bits of a code.
    // Any code: a frame carries those that no station knows, too.
    pub fn primary(fcb: bool, fcv: bool, code: u8) -> Control
        ensures { result.octet ≡ primary_octet fcb fcv code }
    {
        Control {
            octet: PRM + FCB * fcb as u8 + FCV * fcv as u8 + code % 16,
        }
    }

    // From a reader: PRM 0, class 1 data waiting, inbox full, and the low four bits of a code, any here too.
    pub fn secondary(acd: bool, dfc: bool, code: u8) -> Control
        ensures { result.octet ≡ secondary_octet acd dfc code }
    {
        Control {
            octet: FCB * acd as u8 + FCV * dfc as u8 + code % 16,
        }
    }

    // The bit of this weight is 1.
    fn has(self, weight: u8) -> bool
        requires { 1 ≤ weight }
        ensures { result ≡ bit weight self.octet }
    {
        self.octet / weight % 2 == 1
    }

    // Bit 7, which is 0 on this link.
    pub fn reserved(self) -> bool
        ensures { result ≡ bit 128 self.octet }
    {
        self.has(RESERVED)
    }

    // Bit 6: 1 from the concentrator, 0 from a reader.
    pub fn prm(self) -> bool
        ensures { result ≡ bit 64 self.octet }
    {
        self.has(PRM)
    }

    // Bit 5 from the concentrator: the frame count bit.
    pub fn fcb(self) -> bool
        ensures { result ≡ bit 32 self.octet }
    {
        self.has(FCB)
    }

    // Bit 4 from the concentrator: the frame count bit is valid.
    pub fn fcv(self) -> bool
        ensures { result ≡ bit 16 self.octet }
    {
        self.has(FCV)
    }

    // Bit 5 from a reader: class 1 data is waiting.
    pub fn acd(self) -> bool
        ensures { result ≡ bit 32 self.octet }
    {
        self.fcb()
    }

    // Bit 4 from a reader: its inbox is full.
    pub fn dfc(self) -> bool
        ensures { result ≡ bit 16 self.octet }
    {
        self.fcv()
    }

    // Bits 0 to 3: the function code.
    pub fn code(self) -> u8
        ensures { result ≡ code_of self.octet }
    {
        self.octet % 16
    }
}
