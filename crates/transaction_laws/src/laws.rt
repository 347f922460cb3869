//! The laws. The functions do nothing: their contracts are the laws.
ghost use Rattle.transaction_laws.specs.Laws.{DatabasesAreOrderly, EmptyIsOrderly, TransactionsAreSerial, WritesMeanAsOutside};

/// Whatever sessions do beside each other, the transactions whose COMMIT was accepted, each at the
/// place of its COMMIT with nothing between its SELECTs and its writes, and the other statements
/// between them, are answered as they were and leave the same data, layout, accesses and versions in
/// use; so it is from the database without versions and from every database that is kept or loaded.
pub fn transactions_are_serial()
    ensures serial { TransactionsAreSerial }
    ensures empty { EmptyIsOrderly }
    ensures loaded { DatabasesAreOrderly }
{}

/// A write that names the version of its table, as a transaction keeps writes, means in its COMMIT what
/// it means outside a transaction: it is answered or refused so, and leaves the same but for the access
/// that is counted.
pub fn writes_mean_as_outside()
    ensures { WritesMeanAsOutside }
{}
