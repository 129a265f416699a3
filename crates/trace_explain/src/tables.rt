//! The tables of the folder `names/`. `checks/explain/name_tables.py --write` copies them.

/// The table `names/tags.txt`.
pub const TAGS: &str = "\
# Tags: tag TAG IN SIZE FORMAT NAME
#
# IN: the tag of the template around it, perhaps behind that of the next one around, with commas
#   between several; `.` for none, `*` for any. The first row that fits gives the name.
# SIZE: the number of bytes of the value, as 3 or 1-8; `*` for any.
# FORMAT: b bytes, t a template, n a number in decimal digits, n3 the last three of these,
#   cn digits with F behind them, an text, date YYMMDD, time HHMMSS, uint a binary number,
#   aid an application identifier, cvm a list of cardholder verification methods, fd a file
#   descriptor, sfi a short EF identifier in bits 8 to 4, file a file identifier, status a status
#   word, toolkit a command of the card, afl a list of records, dol tags with sizes; or =SET, a
#   set of bits.
#
# ISO/IEC 7816-4: interindustry data objects and templates
tag 41 * * b country code and national data
tag 43 * * b card service data
tag 44 * * b initial access data
tag 46 * * b pre-issuing data
tag 47 * * b card capabilities
tag 4D * * b extended header list
tag 4F * 5-16 aid AID
tag 50 * 1-16 an application label
tag 51 * * b file reference
tag 52 * * b command to perform
tag 53 * * b discretionary data
tag 5B * * an name
tag 5C * * b tag list
tag 5D * * b header list
tag 60 6673 * t card management type and version
tag 61 * * t application template
tag 62 . * t FCP template
tag 63 6673 * t card identification scheme
tag 64 . * t FMD template
tag 64 6673 * t secure channel protocol and options
tag 65 . * t cardholder-related data
tag 65 6673 * t card configuration details
tag 66 . * t card data
tag 66 6673 * t card and chip details
tag 67 . * t authentication data
tag 6E . * t application-related data
tag 6F . * t FCI template
tag 7A . * t security support template
tag 7B . * t security environment template
tag 7C . * t dynamic authentication template
tag 7D . * t secure messaging template
#
# ISO/IEC 7816-4: file control parameters
tag 80 62,64,6F 1-4 uint bytes of data in the file
tag 81 62,64,6F 2-4 uint bytes of the whole file
tag 82 62,64,6F 1-6 fd file descriptor
tag 83 62,64,6F 2 file file identifier
tag 84 62,64,6F 1-16 aid DF name
tag 85 62,64,6F * b proprietary information
tag 86 62,64,6F * b security attribute, proprietary
tag 87 62,64,6F 2 b EF with an extension of the FCI
tag 88 62,64,6F 0 b no short EF identifier
tag 88 62,64,6F 1 sfi short EF identifier
tag 8A 62,64,6F 1 =life life cycle status
tag 8B 62,64,6F * b security attribute, referenced
tag 8C 62,64,6F * b security attribute, compact
tag 8D 62,64,6F 2 b EF with security environments
tag 8E 62,64,6F 1 b channel security attribute
tag A0 62,64,6F * t security attributes for objects
tag A2 62,64,6F * t short EF identifiers and paths
tag A5 62 * t proprietary information
tag A5 6F * t FCI proprietary template
tag AB 62,64,6F * t security attribute, expanded
tag AC 62,64,6F * t cryptographic mechanism
#
# ETSI TS 102 221: file control parameters of a UICC
tag C6 62 * t PIN status template
tag 80 62A5 1 b UICC characteristics
tag 81 62A5 3 b application power consumption
tag 82 62A5 1 b minimum application clock frequency
tag 83 62A5 * uint bytes of memory available
tag 83 C6 1 b key reference
tag 90 C6 1-4 b PIN status
tag 95 C6 1 b usage qualifier
#
# ISO/IEC 7816-4: secure messaging
tag 87 . * b padding indicator and cryptogram
tag 8E . 4-8 b cryptographic checksum
tag 97 . 1-2 b Le
tag 99 . 2 status processing status
#
# ETSI TS 102 223: commands of the card, and envelopes for it
tag D0 . * toolkit proactive command
tag D1 . * b SMS-PP download
tag D2 . * b cell broadcast download
tag D3 . * b menu selection
tag D4 . * b call control
tag D5 . * b MO short message control
tag D6 . * b event download
tag D7 . * b timer expiration
#
# ISO/IEC 7816-8: certificates that cards verify
tag 42 7F4E * an certification authority reference
tag 5F20 7F4E * an certificate holder reference
tag 5F24 7F4E * b certificate expiration date
tag 5F25 7F4E * b certificate effective date
tag 5F29 7F4E * b certificate profile identifier
tag 5F37 7F21 * b signature
tag 7F21 * * t certificate
tag 7F49 * * t public key
tag 7F4C 7F4E * t certificate holder authorisation
tag 7F4E * * t certificate body
#
# EMV 4.3, Book 3, Annex A: templates
tag 70 . * t record template
tag 71 . * t issuer script template 1
tag 72 . * t issuer script template 2
tag 73 61 * t directory discretionary template
tag 77 . * t response template, format 2
tag BF0C * * t FCI issuer discretionary data
#
# EMV 4.3, Book 3, Annex A: data elements
tag 42 * 3 b issuer identification number
tag 57 * 1-19 b track 2 equivalent data
tag 5A * 1-10 cn PAN
tag 5F20 * 2-26 an cardholder name
tag 5F24 * 3 date expiry date
tag 5F25 * 3 date effective date
tag 5F28 * 2 n3 issuer country code
tag 5F2A * 2 n3 transaction currency code
tag 5F2D * 2-8 an language preference
tag 5F30 * 2 =service service code
tag 5F34 * 1 n PAN sequence number
tag 5F36 * 1 n transaction currency exponent
tag 5F50 * * an issuer URL
tag 5F53 * 1-34 b IBAN
tag 5F54 * 8 an BIC
tag 5F54 * 11 an BIC
tag 5F55 * 2 an issuer country code
tag 5F56 * 3 an issuer country code
tag 82 77 2 =aip AIP
tag 86 71,72 1-261 b issuer script command
tag 87 61,6FA5,BF0C61 1 =priority application priority indicator
tag 88 6FA5 1 uint directory SFI
tag 8C 70,77 1-252 dol CDOL1
tag 8D 70,77 1-252 dol CDOL2
tag 8E 70,77 10-252 cvm CVM list
tag 8F 70,77 1 b CA public key index
tag 90 70,77 64-248 b issuer public key certificate
tag 92 70,77 1-248 b issuer public key remainder
tag 93 70,77 64-248 b signed static application data
tag 94 77 4-252 afl AFL
tag 95 .,70,77 5 =tvr TVR
tag 97 70,77 1-252 dol TDOL
tag 9A .,70,77 3 date transaction date
tag 9B .,70,77 2 =tsi TSI
tag 9C .,70,77 1 n transaction type
tag 9D 61,70 5-16 aid DDF name
tag 9F01 * 6 b acquirer identifier
tag 9F02 * 6 n amount, authorised
tag 9F03 * 6 n amount, other
tag 9F04 * 4 uint amount, other
tag 9F05 * 1-32 b application discretionary data
tag 9F06 * 5-16 aid AID of the terminal
tag 9F07 * 2 =auc AUC
tag 9F08 * 2 b application version number
tag 9F09 * 2 b application version number of the terminal
tag 9F0B * 27-45 an cardholder name, extended
tag 9F0D * 5 =tvr issuer action code, default
tag 9F0E * 5 =tvr issuer action code, denial
tag 9F0F * 5 =tvr issuer action code, online
tag 9F10 * 1-32 b issuer application data
tag 9F11 * 1 n issuer code table index
tag 9F12 * 1-16 an application preferred name
tag 9F13 * 2 uint last online ATC
tag 9F14 * 1 uint lower consecutive offline limit
tag 9F15 * 2 b merchant category code
tag 9F16 * 15 an merchant identifier
tag 9F17 * 1 uint PIN tries left
tag 9F18 * 4 b issuer script identifier
tag 9F1A * 2 n3 terminal country code
tag 9F1B * 4 uint terminal floor limit
tag 9F1C * 8 an terminal identification
tag 9F1D * 1-8 b terminal risk management data
tag 9F1E * 8 an IFD serial number
tag 9F1F * * an track 1 discretionary data
tag 9F20 * * b track 2 discretionary data
tag 9F21 * 3 time transaction time
tag 9F22 * 1 b CA public key index of the terminal
tag 9F23 * 1 uint upper consecutive offline limit
tag 9F26 * 8 b application cryptogram
tag 9F27 * 1 =cid CID
tag 9F29 61,BF0C61 * b extended selection
tag 9F2A 61,BF0C61 1-8 b kernel identifier
tag 9F2D * 64-248 b ICC PIN encipherment certificate
tag 9F2E * 1 b ICC PIN encipherment exponent
tag 9F2E * 3 b ICC PIN encipherment exponent
tag 9F2F * 1-248 b ICC PIN encipherment remainder
tag 9F32 * 1 b issuer public key exponent
tag 9F32 * 3 b issuer public key exponent
tag 9F33 * 3 =terminal terminal capabilities
tag 9F34 * 3 =cvm CVM results
tag 9F35 * 1 b terminal type
tag 9F36 * 2 uint ATC
tag 9F37 * 4 b unpredictable number
tag 9F38 * 1-252 dol PDOL
tag 9F39 * 1 b POS entry mode
tag 9F3A * 4 uint amount in the reference currency
tag 9F3B * 2-8 b application reference currency
tag 9F3C * 2 n3 transaction reference currency
tag 9F3D * 1 n transaction reference exponent
tag 9F40 * 5 b additional terminal capabilities
tag 9F41 * 2-4 n transaction sequence counter
tag 9F42 * 2 n3 application currency code
tag 9F43 * 1-4 b application reference exponents
tag 9F44 * 1 n application currency exponent
tag 9F45 * 2 b data authentication code
tag 9F46 * 64-248 b ICC public key certificate
tag 9F47 * 1 b ICC public key exponent
tag 9F47 * 3 b ICC public key exponent
tag 9F48 * 1-248 b ICC public key remainder
tag 9F49 * 1-252 dol DDOL
tag 9F4A * * b static data authentication tags
tag 9F4B * 64-248 b signed dynamic application data
tag 9F4C * 2-8 b ICC dynamic number
tag 9F4D * 2 b log entry
tag 9F4E * * an merchant name and location
tag 9F4F * * dol log format
#
# EMV Contactless, Book C-3
tag 9F66 * 4 =ttq TTQ
tag 9F6C 77 2 =ctq CTQ
#
# GlobalPlatform Card Specification 2.3
tag 73 66 * t card recognition data
tag 84 E3 5-16 aid executable module AID
tag 9F65 6FA5 1-2 uint most bytes of a command's data
tag 9F6E 6FA5 * b application production life cycle
tag 9F70 .,E3 * b life cycle state
tag 9F7F * 42 b CPLC
tag C0 E0 4-20 b key information
tag C4 E3 5-16 aid executable load file AID
tag C5 E3 1-3 b privileges
tag CC E3 5-16 aid associated security domain AID
tag CE E3 * b executable load file version
tag CF E3 1 b implicit selection parameter
tag E0 . * t key information template
tag E3 . * t registry-related data
";

/// The table `names/aids.txt`.
pub const AIDS: &str = "\
# Application identifiers: aid AID NAME
#
# The longest AID that begins an identifier gives its name. Five bytes are a RID, a provider's.
aid 315041592E5359532E4444463031 PSE
aid 325041592E5359532E4444463031 PPSE
aid A000000003 Visa
aid A000000003000000 Visa, card manager
aid A0000000031010 Visa credit or debit
aid A0000000032010 Visa Electron
aid A0000000032020 V PAY
aid A0000000033010 Visa Interlink
aid A0000000038010 Visa Plus
aid A000000004 Mastercard
aid A0000000041010 Mastercard credit or debit
aid A0000000042203 Mastercard US common debit
aid A0000000043060 Maestro
aid A0000000046000 Cirrus
aid A0000000050001 Maestro UK
aid A000000025 American Express
aid A0000000291010 LINK
aid A000000042 CB
aid A0000000421010 CB credit or debit
aid A000000063504B43532D3135 PKCS #15
aid A000000065 JCB
aid A000000087 3GPP
aid A0000000871002 USIM
aid A0000000871004 ISIM
aid A0000000980840 Visa US common debit
aid A0000001211010 Dankort
aid A0000001410001 PagoBANCOMAT
aid A000000151 GlobalPlatform
aid A000000151000000 issuer security domain
aid A000000152 Discover
aid A0000001523010 Discover credit or debit
aid A0000001524010 Discover US common debit
aid A0000002281010 mada
aid A0000002471001 eMRTD
aid A0000002771010 Interac
aid A00000030800001000 PIV
aid A0000003241010 Discover Zip
aid A000000333 UnionPay
aid A000000333010101 UnionPay debit
aid A000000333010102 UnionPay credit
aid A000000333010103 UnionPay quasi-credit
aid A000000333010106 UnionPay electronic cash
aid A0000003431002 CSIM
aid A0000003591010028001 girocard
aid A00000038410 eftpos savings
aid A00000038420 eftpos cheque
aid A0000005241010 RuPay
aid A0000006472F0001 FIDO
aid A0000006581010 Mir
aid D27600012401 OpenPGP
aid D2760000850100 NDEF, version 1
aid D2760000850101 NDEF, version 2
aid E80704007F00070302 German eID
";

/// The table `names/bits.txt`.
pub const BITS: &str = "\
# Bits: bit SET BYTE MASK=VALUE WORDS
#
# The words are shown if the byte, counted from 1, has this value under the mask. MASK alone means
# that all its bits are set. Bits without words are reserved.
#
# EMV 4.3, Book 3, Annex C1: application interchange profile
bit aip 1 40 SDA
bit aip 1 20 DDA
bit aip 1 10 cardholder verification
bit aip 1 08 terminal risk management
bit aip 1 04 issuer authentication
bit aip 1 01 CDA
# Annex C2: application usage control
bit auc 1 80 domestic cash
bit auc 1 40 international cash
bit auc 1 20 domestic goods
bit auc 1 10 international goods
bit auc 1 08 domestic services
bit auc 1 04 international services
bit auc 1 02 ATMs
bit auc 1 01 terminals other than ATMs
bit auc 2 80 domestic cashback
bit auc 2 40 international cashback
# Annex C3: cardholder verification rules; byte 3 of the results is in Book 4, Annex A4
bit cvm 1 3F=00 fail
bit cvm 1 3F=01 plaintext PIN by the ICC
bit cvm 1 3F=02 enciphered PIN online
bit cvm 1 3F=03 plaintext PIN by the ICC and signature
bit cvm 1 3F=04 enciphered PIN by the ICC
bit cvm 1 3F=05 enciphered PIN by the ICC and signature
bit cvm 1 3F=1E signature
bit cvm 1 3F=1F no CVM
bit cvm 1 3E=06 reserved method
bit cvm 1 38=08 reserved method
bit cvm 1 38=10 reserved method
bit cvm 1 3C=18 reserved method
bit cvm 1 3E=1C reserved method
bit cvm 1 30=20 method of the payment system
bit cvm 1 38=30 method of the issuer
bit cvm 1 3C=38 method of the issuer
bit cvm 1 3E=3C method of the issuer
bit cvm 1 3F=3E method of the issuer
bit cvm 1 3F=3F no CVM performed
bit cvm 1 40 or the next
bit cvm 2 FF=00 always
bit cvm 2 FF=01 if unattended cash
bit cvm 2 FF=02 if not cash or cashback
bit cvm 2 FF=03 if the terminal supports it
bit cvm 2 FF=04 if manual cash
bit cvm 2 FF=05 if purchase with cashback
bit cvm 2 FF=06 if in the application's currency and under X
bit cvm 2 FF=07 if in the application's currency and over X
bit cvm 2 FF=08 if in the application's currency and under Y
bit cvm 2 FF=09 if in the application's currency and over Y
bit cvm 3 FF=00 result unknown
bit cvm 3 FF=01 failed
bit cvm 3 FF=02 successful
# Annex C5: terminal verification results, and the action codes
bit tvr 1 80 offline data authentication not performed
bit tvr 1 40 SDA failed
bit tvr 1 20 ICC data missing
bit tvr 1 10 card on exception file
bit tvr 1 08 DDA failed
bit tvr 1 04 CDA failed
bit tvr 1 02 SDA selected
bit tvr 2 80 different application versions
bit tvr 2 40 expired application
bit tvr 2 20 application not yet effective
bit tvr 2 10 requested service not allowed
bit tvr 2 08 new card
bit tvr 3 80 cardholder verification not successful
bit tvr 3 40 unrecognised CVM
bit tvr 3 20 PIN try limit exceeded
bit tvr 3 10 PIN pad missing or not working
bit tvr 3 08 PIN not entered
bit tvr 3 04 online PIN entered
bit tvr 4 80 floor limit exceeded
bit tvr 4 40 lower consecutive offline limit exceeded
bit tvr 4 20 upper consecutive offline limit exceeded
bit tvr 4 10 selected randomly for online processing
bit tvr 4 08 merchant forced online
bit tvr 5 80 default TDOL used
bit tvr 5 40 issuer authentication failed
bit tvr 5 20 script failed before final GENERATE AC
bit tvr 5 10 script failed after final GENERATE AC
# Annex C6: transaction status information
bit tsi 1 80 offline data authentication
bit tsi 1 40 cardholder verification
bit tsi 1 20 card risk management
bit tsi 1 10 issuer authentication
bit tsi 1 08 terminal risk management
bit tsi 1 04 script processing
# Book 3, 6.5.5.4: cryptogram information data
bit cid 1 C0=00 AAC
bit cid 1 C0=40 TC
bit cid 1 C0=80 ARQC
bit cid 1 08 advice required
bit cid 1 07=01 service not allowed
bit cid 1 07=02 PIN try limit exceeded
bit cid 1 07=03 issuer authentication failed
# Book 1, 12.2.3: application priority indicator
bit priority 1 0F=01 first
bit priority 1 0F=02 second
bit priority 1 0F=03 third
bit priority 1 0F=04 fourth
bit priority 1 0F=05 fifth
bit priority 1 0F=06 sixth
bit priority 1 0F=07 seventh
bit priority 1 0F=08 eighth
bit priority 1 0F=09 ninth
bit priority 1 0F=0A tenth
bit priority 1 0F=0B eleventh
bit priority 1 0F=0C twelfth
bit priority 1 0F=0D thirteenth
bit priority 1 0F=0E fourteenth
bit priority 1 0F=0F fifteenth
bit priority 1 80 only if the cardholder confirms
# Book 4, Annex A2: terminal capabilities
bit terminal 1 80 manual key entry
bit terminal 1 40 magnetic stripe
bit terminal 1 20 IC with contacts
bit terminal 2 80 plaintext PIN by the ICC
bit terminal 2 40 enciphered PIN online
bit terminal 2 20 signature
bit terminal 2 10 enciphered PIN by the ICC
bit terminal 2 08 no CVM
bit terminal 3 80 SDA
bit terminal 3 40 DDA
bit terminal 3 20 card capture
bit terminal 3 08 CDA
# EMV Contactless, Book C-3: card and terminal transaction qualifiers
bit ctq 1 80 online PIN required
bit ctq 1 40 signature required
bit ctq 1 20 online if offline data authentication fails
bit ctq 1 10 other interface if offline data authentication fails
bit ctq 1 08 online if the application expired
bit ctq 1 04 other interface for cash
bit ctq 1 02 other interface for cashback
bit ctq 2 80 consumer device CVM performed
bit ctq 2 40 issuer update at the POS
bit ttq 1 80 magnetic stripe mode
bit ttq 1 20 EMV mode
bit ttq 1 10 EMV contact chip
bit ttq 1 08 offline-only reader
bit ttq 1 04 online PIN
bit ttq 1 02 signature
bit ttq 1 01 offline data authentication for online
bit ttq 2 80 online cryptogram required
bit ttq 2 40 CVM required
bit ttq 2 20 offline PIN with contacts
bit ttq 3 80 issuer update processing
bit ttq 3 40 consumer device CVM
# ISO/IEC 7813: service code
bit service 1 0F=01 international
bit service 1 0F=02 international with the IC
bit service 1 0F=05 national
bit service 1 0F=06 national with the IC
bit service 1 0F=07 by agreement alone
bit service 1 0F=09 test
bit service 2 F0=00 normal authorisation
bit service 2 F0=20 authorisation by the issuer
bit service 2 F0=40 authorisation by the issuer, unless agreed
bit service 2 0F=00 no restrictions, PIN
bit service 2 0F=01 no restrictions
bit service 2 0F=02 goods and services
bit service 2 0F=03 ATM, PIN
bit service 2 0F=04 cash
bit service 2 0F=05 goods and services, PIN
bit service 2 0F=06 no restrictions, PIN if possible
bit service 2 0F=07 goods and services, PIN if possible
# ISO/IEC 7816-4, 5.3.3.2 and 5.3.3.3: file descriptor, life cycle status
bit fd 1 BF=38 DF
bit fd 1 BF=39 EF of BER-TLV objects
bit fd 1 BF=3A EF of SIMPLE-TLV objects
bit fd 1 B8=00 working EF
bit fd 1 B8=08 internal EF
bit fd 1 B7=01 transparent
bit fd 1 B7=02 linear fixed
bit fd 1 B7=03 linear fixed of TLV
bit fd 1 B7=04 linear variable
bit fd 1 B7=05 linear variable of TLV
bit fd 1 B7=06 cyclic
bit fd 1 B7=07 cyclic of TLV
bit fd 1 C0=40 shareable
bit life 1 FF=00 no information
bit life 1 FF=01 creation
bit life 1 FF=03 initialisation
bit life 1 FD=05 operational, activated
bit life 1 FD=04 operational, deactivated
bit life 1 FC=0C terminated
# ETSI TS 102 223, 9.4: commands of the card
bit toolkit 4 FF=01 REFRESH
bit toolkit 4 FF=02 MORE TIME
bit toolkit 4 FF=03 POLL INTERVAL
bit toolkit 4 FF=04 POLLING OFF
bit toolkit 4 FF=05 SET UP EVENT LIST
bit toolkit 4 FF=10 SET UP CALL
bit toolkit 4 FF=11 SEND SS
bit toolkit 4 FF=12 SEND USSD
bit toolkit 4 FF=13 SEND SHORT MESSAGE
bit toolkit 4 FF=14 SEND DTMF
bit toolkit 4 FF=15 LAUNCH BROWSER
bit toolkit 4 FF=20 PLAY TONE
bit toolkit 4 FF=21 DISPLAY TEXT
bit toolkit 4 FF=22 GET INKEY
bit toolkit 4 FF=23 GET INPUT
bit toolkit 4 FF=24 SELECT ITEM
bit toolkit 4 FF=25 SET UP MENU
bit toolkit 4 FF=26 PROVIDE LOCAL INFORMATION
bit toolkit 4 FF=27 TIMER MANAGEMENT
bit toolkit 4 FF=28 SET UP IDLE MODE TEXT
bit toolkit 4 FF=30 PERFORM CARD APDU
bit toolkit 4 FF=31 POWER ON CARD
bit toolkit 4 FF=32 POWER OFF CARD
bit toolkit 4 FF=33 GET READER STATUS
bit toolkit 4 FF=34 RUN AT COMMAND
bit toolkit 4 FF=35 LANGUAGE NOTIFICATION
bit toolkit 4 FF=40 OPEN CHANNEL
bit toolkit 4 FF=41 CLOSE CHANNEL
bit toolkit 4 FF=42 RECEIVE DATA
bit toolkit 4 FF=43 SEND DATA
bit toolkit 4 FF=44 GET CHANNEL STATUS
";
