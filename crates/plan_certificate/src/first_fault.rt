ghost use Rattle.plan_certificate.specs.FirstFault.{CertificateFaultLaw, OneFirstLaw};

/// The law of the first fault: what the fault of [`read`](crate::read) says of a text. Where it is that of a line, the lines
/// before begin the text of some certificate over the forest, and with this line, where it has its line feed, they begin none.
/// Where the text is truncated, some certificate's text begins with it and goes on; and where something trails, the text
/// begins with some certificate's and goes on. At most one line of a text is the first at fault.
pub fn first_fault_law()
    ensures says { CertificateFaultLaw }
    ensures alone { OneFirstLaw }
{}
