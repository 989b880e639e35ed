//! The help texts of the program and its subcommands.

pub const VERSION: &str = "0.1.0";

pub const ABOUT: &str =
    "A Named Data Networking client: it writes, sends and explains packets, and computes HMACs.";

pub const TOOL: &str =
    "HEX stands for octets in hexadecimal: two digits for each octet, in upper or lower case. URI is
the text of a name, such as /A/seg=5. N is a decimal number. ENDPOINT is a port of 127.0.0.1, such
as 6363, or an address and a port, such as 192.0.2.1:6363 or [2001:db8::1]:6363.

Each line of a key file has the URI of a key's name, a space, and the key in hexadecimal; a public
key for ECDSA has ecdsa-p256 and a space before it. Empty lines, and lines that begin with ;, are
skipped.

Example: write a key file, sign an Interest with its key, and show the fields of the Interest.
  $ echo '/ops/KEY/1 6b6579' > ops.keys
  $ packet=$(ndn_tool interest /A --nonce 01020304 --keys ops.keys --key /ops/KEY/1 --time 1000000)
  $ ndn_tool show $packet

Exit status:
  0  the command line was carried out
  1  a key file has a fault, or the key that --key names is missing; a packet would be too long, or
     would have a name that is not allowed; the octets given to show or explain are not a packet;
     the file given to key show has no certificate with a P-256 key
  2  the command line is wrong; for explain, a line of standard input is too long; for send,
     standard input is too long or not hexadecimal
  3  reading, writing or sending failed, the subcommand send got no answer, or memory ran out

If route, strategy, cache, repo or peek sends a packet, the exit status is 0 only if one of these
comes back: for a command, a reply with the status 200; for repo insert, also a reply with the
status 100; for a list, all its segments; for peek, the Data. Otherwise the exit status is
  1  if another reply came back
  4  if a Nack came back
  5  if no answer came in time
  6  if no program listens on the port
  7  for peek, if the signature of the Data is wrong";

pub const INTEREST: &str =
    "With --key, the Interest is signed with HmacWithSha256. A signed Interest always has
parameters, which are empty if --parameters is absent. If an Interest has parameters, the parameters
digest is appended to its name. Without --key, the options --time and --seq have no effect. With
--token, a link packet is printed, which contains the PIT token and the Interest.

Example: an Interest for /A with the default lifetime of 4,000 milliseconds.
  $ ndn_tool interest /A --nonce 01020304
  050b07030801410a0401020304";

pub const DATA: &str = "The signature is HmacWithSha256 with --key, and DigestSha256 without --key.

Example: a Data named /A. Its Content is the letter x.
  $ ndn_tool data /A --content 78
  062f070308014115017816031b01001720e4f0b5aed03446e702356a360c7194c208b8b6a28ff30de430f1baa08ba29266";

pub const COMMAND: &str =
    "URI is the name of the command, and ends with its verb. Two components are appended to URI: the
parameters of the command, and the parameters digest. If URI is under /localhost/nfd, the command is
for a node, and --lifetime and --can-be-prefix have no effect. Otherwise the command is for a
repository, and only --name, --lifetime and --can-be-prefix give parameters. The signature is
HmacWithSha256 with --key, and DigestSha256 without --key.

Example: a signed command that adds a next hop for /A.
  $ echo '/ops/KEY/1 6b6579' > ops.keys
  $ ndn_tool command /localhost/nfd/fib/add-nexthop --name /A --face 2 \\
      --nonce 01020304 --time 1000000 --keys ops.keys --key /ops/KEY/1";

pub const ROUTE: &str =
    "The verbs, with the arguments that they require and the options of their own:
  add PREFIX --face N [--cost N]       adds a next hop, or changes its cost
  remove PREFIX --face N               removes a next hop
  register PREFIX --face N [--cost N] [--flags N] [--expires MILLISECONDS] [--origin N]
                                       registers a route, or replaces the registered route that has
                                       the same name, face and origin
  unregister PREFIX --face N [--origin N]
                                       removes a registered route
  list                                 asks for the list of all routes

With --send, the request is sent. Then the fields of the answer are printed; for a list, a table is
printed instead, with tabs between its columns. Without --send, the request is only printed, in
hexadecimal. The option --from requires --send. ENDPOINT is a port of 127.0.0.1, such as 6363, or an
address and a port, such as 192.0.2.1:6363 or [2001:db8::1]:6363.

The signature of a command is HmacWithSha256 with --key, and DigestSha256 without --key. If --time
is absent, the signature time is the time of the clock. If --nonce is absent, the Nonce is random.
For the verb `list`, only the options --nonce, --send, --from and --timeout are allowed.

Example: send a command from port 7001 to the node at port 6363. The command adds a next hop for /A
through face 2. Then get the list of routes.
  $ ndn_tool route add /A --face 2 --keys ops.keys --key /ops/KEY/1 --send 6363 --from 7001
  $ ndn_tool route list --send 6363 --from 7001

Example: print a command that removes the next hop.
  $ ndn_tool route remove /A --face 2 --keys ops.keys --key /ops/KEY/1

Example: print a command that registers a route for /A through face 2. Longer names inherit the
route, and it expires after an hour. Then print a command that removes the route.
  $ ndn_tool route register /A --face 2 --flags 1 --expires 3600000 --keys ops.keys --key /ops/KEY/1
  $ ndn_tool route unregister /A --face 2 --keys ops.keys --key /ops/KEY/1";

pub const STRATEGY: &str = "The verbs, with the arguments that they require:
  set PREFIX STRATEGY  sets the strategy of a name
  unset PREFIX         removes the strategy of a name
  list                 asks for the list of all strategies
STRATEGY is best-route, multicast or the URI of a strategy.

With --send, the request is sent. Then the fields of the answer are printed; for a list, a table is
printed instead, with tabs between its columns. Without --send, the request is only printed, in
hexadecimal. The option --from requires --send. ENDPOINT is a port of 127.0.0.1, such as 6363, or an
address and a port, such as 192.0.2.1:6363 or [2001:db8::1]:6363.

The signature of a command is HmacWithSha256 with --key, and DigestSha256 without --key. If --time
is absent, the signature time is the time of the clock. If --nonce is absent, the Nonce is random.
For the verb `list`, only the options --nonce, --send, --from and --timeout are allowed.

Example: print a command that sets the strategy of /A to multicast.
  $ ndn_tool strategy set /A multicast --keys ops.keys --key /ops/KEY/1";

pub const CACHE: &str =
    "The only verb is erase. With --send, the command is sent, and then the fields of the answer are
printed. Without --send, the command is only printed, in hexadecimal. The option --from requires
--send. ENDPOINT is a port of 127.0.0.1, such as 6363, or an address and a port, such as
192.0.2.1:6363 or [2001:db8::1]:6363.

The signature is HmacWithSha256 with --key, and DigestSha256 without --key. If --time is absent, the
signature time is the time of the clock. If --nonce is absent, the Nonce is random.

Example: print a command that erases at most 10 Data under /A.
  $ ndn_tool cache erase /A --count 10 --keys ops.keys --key /ops/KEY/1";

pub const REPOSITORY: &str = "The verbs:
  insert  lets the repository fetch the Data from the network and store it
  delete  deletes the stored Data that match NAME, and ends a waiting insert of NAME
  check   counts the stored Data that match NAME

With --send, the command is sent, and then the fields of the answer are printed. Without --send, the
command is only printed, in hexadecimal. The option --from requires --send. ENDPOINT is a port of
127.0.0.1, such as 6363, or an address and a port, such as 192.0.2.1:6363 or [2001:db8::1]:6363.

The signature is HmacWithSha256 with --key, and DigestSha256 without --key. If --time is absent, the
signature time is the time of the clock. If --nonce is absent, the Nonce is random.

Example: print a command that lets the repository with the prefix /repo store the Data /A.
  $ ndn_tool repo insert /repo /A --keys ops.keys --key /ops/KEY/1";

pub const TAG: &str =
    "Example: the HMAC of the text `what do ya want for nothing?` under the key `Jefe`.
  $ echo '/k 4a656665' > k.keys
  $ ndn_tool tag 7768617420646f2079612077616e7420666f72206e6f7468696e673f --keys k.keys --key /k
  5bdcc146bf60754e6a042426089575c75a003f089d2739839dec58b964ec3843";

pub const SHOW: &str = "Prints a line for each of these parts of the packet:
  Interest  name, CanBePrefix, MustBeFresh, Nonce, lifetime, HopLimit, parameters, signature
  Data      name, freshness, Content, signature
  Nack      reason, and then the lines of the Interest in the Nack
A part that the packet does not have is left out. But `lifetime 4000` is printed for an Interest
without a lifetime, and `freshness 0` for a Data without a freshness. The value `-` means no octets.

Example: a Data named /A.
  $ ndn_tool show 060f070308014115017816031b01001700
  data /A
  freshness 0
  content 78
  signature 0 -";

pub const EXPLAIN: &str =
    "Prints the lines of show, and also these parts of the packet, if it has them: the PIT token;
the name of the Nack's reason; the key locator, the time and the sequence number of the signature;
the number of the segment; the fields of the command, the reply or the list; the Content as text, if
it is printable ASCII. With --keys, also prints whether the signature is right.

If HEX is -, the packets in the lines of standard input are explained. A packet in hexadecimal can
be the whole line, or can follow `> FACE` as in the output of ndn_node. If the octets of such a line
are not a packet, the reason is printed. An empty line is left out. Any other line is printed
unchanged.

Example: a Data named /A, with the name of a key, and with an empty signature value.
  $ ndn_tool explain 0620070308014115017816141b01041c0f070d08036f707308034b45590801311700
  data /A
  freshness 0
  content 78
  signature 4 -
  key-locator /ops/KEY/1
  text x";

pub const SEND: &str =
    "Sends the octets as one datagram to a port. Then prints the first datagram that comes back, in
hexadecimal, whatever it contains. If HEX is -, the octets are read from standard
input, in hexadecimal. If no datagram comes back in time, the exit status is 3.

ENDPOINT is a port of 127.0.0.1, such as 6363, or an address and a port, such as 192.0.2.1:6363 or
[2001:db8::1]:6363.

Example: write an Interest, send it to the node at port 6363, and explain the answer.
  $ ndn_tool interest /A --nonce 01020304 | ndn_tool send - --to 6363 | ndn_tool explain -";

pub const PEEK: &str =
    "With --to, the Interest is sent. Then the Data or the Nack that comes back is printed in the
format of explain. With --to and --raw, only the Content of the Data is printed. Without --to, the
Interest is only printed, in hexadecimal. The option --from requires --to. If --nonce is absent, the
Nonce is random. The exit status is 4 if a Nack comes back, 5 if no answer comes in time, and 6 if
no program listens on the port.

The client waits for an answer as long as --timeout says. Without --timeout it waits for the time of
--lifetime, and without both for 4,000 milliseconds. With --retries, after each silence the Interest
is sent again with a new Nonce, at most N times.

A Data with a wrong DigestSha256 signature is not printed, and the exit status is 7. With --keys, the
same holds for a wrong HMAC or ECDSA signature, if the file has its key. With --unverified, such a
Data is printed, and a warning on standard error. All other signatures are not checked.

ENDPOINT is a port of 127.0.0.1, such as 6363, or an address and a port, such as 192.0.2.1:6363 or
[2001:db8::1]:6363.

Example: the Content of /A, from the node at port 6363, and from a node on another machine.
  $ ndn_tool peek /A --to 6363 --raw
  $ ndn_tool peek /A --to 192.0.2.1:6363 --raw";

pub const GET: &str =
    "A file is Data with the names NAME/v=VERSION/seg=0, NAME/v=VERSION/seg=1 and so on. Each has a
piece of the file and, as FinalBlockId, the number of the last segment. URI is NAME or
NAME/v=VERSION. Without a version, the first Data that the network has under NAME decides the
version. A file without versions has the names NAME/seg=0, NAME/seg=1 and so on.

Up to 8 Interests are sent at once. An Interest without an answer is sent again with a new Nonce,
after a time that depends on how soon other answers came; so is an Interest whose answer is a Nack
for congestion. The signature of each segment is checked: a DigestSha256, and with --keys an HMAC or
an ECDSA signature, if the file has its key. All other signatures are not checked.

With --output, the file is written as FILE.part, which becomes FILE when the last segment is written.
If the file cannot be fetched, FILE stays as it was.

The exit status is 1 if a Data is no segment of the file, 4 if a Nack comes back, 5 if a segment has
no answer in time, 6 if no program listens on the port, and 7 if a signature is wrong.

Example: the file /data/log, from the node at port 6363.
  $ ndn_tool get /data/log --to 6363 --output log";

pub const PUT: &str =
    "The file is cut into pieces of 8,000 octets, and each becomes a Data with the name
NAME/v=VERSION/seg=K. URI is NAME or NAME/v=VERSION. Without a version, the version is the time of
the clock, in microseconds since 1970. For each Data the client sends a command insert to the
repository, then the Data, and then the command again, until the reply says that the Data is stored.
At most 8 Data are under way. A command without a reply is sent again.

Data and commands are signed with HmacWithSha256 with --key, and with DigestSha256 without --key.
The rules of the node must allow both. If the file was stored in part, give NAME/v=VERSION, and the
rest is stored.

When all is stored, the name with its version is printed. The exit status is 1 if a reply says that
a command was not done, or if the repository does not take a Data, 5 if a command has no reply in
time, and 6 if no program listens on the port.

Example: store the file log as /data/log in the repository /repo of the node at port 6363.
  $ ndn_tool put log /data/log --repo /repo --to 6363 --keys ops.keys --key /ops/KEY/1";

pub const KEY_COMMAND: &str =
    "FILE has a certificate (NDN Certificate Format 2.0): the octets of its Data, or their base64 text as
ndnsec cert-dump writes it. Two lines of a key file are printed, since a packet may name its key by
either name: the name of the key and the name of the certificate, each with the word ecdsa-p256 and
the public key in hexadecimal. The key must be a P-256 key, with the curve by its name and an
uncompressed point.

The signature of the certificate is not checked. Add the lines to a key file only if you trust that
the key belongs to that name.

If FILE has no such certificate, the reason is printed, and the exit status is 1.

Example: add the key of the certificate in the file alice.cert to the key file ops.keys.
  $ ndn_tool key show alice.cert >> ops.keys";

pub const TIME: &str = "The time of the signature, in milliseconds since 1970";

pub const SEQ: &str = "The sequence number of the signature; none if absent";

pub const FACE: &str = "The face of the next hop or route; 0 is the face that receives the command";

pub const COST: &str = "The cost of the next hop or route; 0 if absent";

pub const FLAGS: &str =
    "The flags of the route: 0 none, 1 child-inherit, 2 capture, 3 both; 1 if absent";

pub const EXPIRES: &str =
    "The milliseconds until the route expires; if absent, the route does not expire";

pub const ORIGIN: &str = "The origin of the route; 0 if absent";

pub const COUNT: &str = "The greatest number of Data to erase; no limit if absent";

pub const LIFETIME: &str = "The InterestLifetime in milliseconds; 4000 if absent";

pub const WAIT: &str = "How long an insert waits for the Data, in milliseconds; 4000 if absent";

pub const CAN_BE_PREFIX: &str =
    "Also accepts Data with longer names that begin with the given name";

pub const MUST_BE_FRESH: &str = "Cached Data may answer only while it is fresh";

pub const NONCE: &str = "The Nonce, 4 octets";

pub const KEYS: &str = "The key file";

pub const KEY: &str = "The name of the key that signs";

pub const SEND_TO: &str = "Sends the request to this port, and prints the answer";

pub const TO: &str = "The port to which the packet is sent";

pub const FROM: &str = "The port from which the packet is sent; a free port if absent";

pub const TIMEOUT: &str = "How long to wait for an answer, in milliseconds; 4000 if absent";

pub const PEEK_TIMEOUT: &str =
    "How long to wait for an answer, in milliseconds; the lifetime if absent";

pub const RETRIES: &str = "How often the Interest is sent again if no answer comes; 0 if absent";

pub const GET_RETRIES: &str = "How often the Interest of a segment is sent again; 15 if absent";

pub const PUT_RETRIES: &str = "How often a command is sent again without a reply; 15 if absent";

pub const FRESHNESS: &str = "The FreshnessPeriod in milliseconds; 0 if absent";
